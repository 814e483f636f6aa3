//! The pairs of tags that race on a word, found along the order in which events are handled.

ghost use Rattle.std.specs.Prelude.{◌≡◌, ◌∷◌, [], IsTrue, OnOk, ℕ};
ghost use Rattle.std.specs.List.{position};
ghost use Rattle.gr_model.specs.declared.event.Word.{Word as AnyWord};
ghost use Rattle.gr_shadow.specs.Lent.{lent_clocked};
ghost use Rattle.gr_explain.specs.TagPairs.{Finds, IsFound, IsPreferred, KeepsMore, IsTagAdded, StandsForTags, is_of_tags};

use crate::alike::Alike;
use crate::seen::event_of;
use gr_model::event::EventId;
use gr_model::memory::Memory;
use gr_model::race::{Race, turned};
use gr_shadow::lent::LentAccess;
use std::alloc::{Allocator, Global};

/// A race, and the tags of its two accesses, in any order.
#[derive(Clone, Copy, Debug)]
pub(crate) struct TaggedRace {
    /// The race.
    pub(crate) race: Race,
    /// The tag of one access.
    pub(crate) tag: u128,
    /// The tag of the other one.
    pub(crate) other: u128,
}

impl TaggedRace {
    /// Whether the two tags are these.
    fn is_of(&self, tag: u128, other: u128) -> bool
        ensures { result ≡ is_of_tags tag other self.now }
    {
        (self.tag == tag && self.other == other) || (self.tag == other && self.other == tag)
    }
}

/// The accesses to a word that came so far, and one race for each two tags that race on it: of two groups, if there is such a race.
#[derive(Drop)]
#[derive_where(Debug)]
pub(crate) struct TagPairs<A: Allocator = Global> {
    /// The accesses of each tag and class.
    pub(crate) lists: Vec<Alike<A>, A>,
    /// The races.
    pub(crate) found: Vec<TaggedRace, A>,
}

/// The place of the race of these tags.
fn place_of_tags(found: &[TaggedRace], tag: u128, other: u128) -> Option<usize>
    ensures { result ≡ position (is_of_tags tag other) found.now }
{
    found.iter().position(|race| race.is_of(tag, other))
}

/// The race of a later access with an earlier one.
fn race_with<A: Allocator>(earlier: EventId, access: &LentAccess<'_, A>) -> Race
    ensures { IsFound earlier (lent_clocked access.now) result }
{
    let (first, second) = turned(earlier, event_of(access));
    Race {
        word: access.word,
        first,
        second,
    }
}

/// Puts another race of the same two tags in the place of a race of one group, if there is one of two groups: that of a later access with
/// one of the accesses `alike`.
fn prefer<A: Allocator>(race: &mut Race, alike: &Alike<A>, access: &LentAccess<'_, A>)
    ensures { IsPreferred alike.now (lent_clocked access.now) race.old race.new }
{
    if race.first.at.group != race.second.at.group {
        return;
    }
    if let Some(earlier) = alike.clashing(access, true) {
        *race = race_with(earlier, access);
    }
}

/// Adds the race of a later access, which has this tag, with one of the accesses `alike`, if it clashes with one of them and there is no
/// race of the two tags yet. If there is one of one group, prefers one of two groups.
fn find_among<A: Allocator>(
    found: &mut Vec<TaggedRace, A>,
    alike: &Alike<A>,
    access: &LentAccess<'_, A>,
    tag: u128,
) -> Result<(), Memory>
    ensures { OnOk result (Finds (lent_clocked access.now) tag (alike.now ∷ []) found.old.items found.new.items) }
{
    match place_of_tags(found, alike.tag(), tag) {
        Some(place) => prefer(&mut found[place].race, alike, access),
        None => {
            if let Some(earlier) = alike.clashing(access, false) {
                let mut race = race_with(earlier, access);
                prefer(&mut race, alike, access);
                let (tag, other) = (alike.tag(), tag);
                found.push(TaggedRace { race, tag, other })?;
            }
        }
    }
    Ok(())
}

/// Adds the races of a later access, which has this tag, with the earlier ones, if there is no race of the two tags yet, or none of two
/// groups.
fn find_races<A: Allocator>(
    found: &mut Vec<TaggedRace, A>,
    lists: &[Alike<A>],
    access: &LentAccess<'_, A>,
    tag: u128,
) -> Result<(), Memory>
    ensures { OnOk result (Finds (lent_clocked access.now) tag lists.now found.old.items found.new.items) }
{
    for alike in lists {
        find_among(found, alike, access, tag)?;
    }
    Ok(())
}

/// Adds an access with this tag to the list to which it belongs, or to a new one.
#[tactic(auto, using(crate::proofs::TagPairLemmas::keeps_set, crate::proofs::TagPairLemmas::keeps_push))]
fn keep<A: Allocator + Copy>(
    lists: &mut Vec<Alike<A>, A>,
    access: &LentAccess<'_, A>,
    tag: u128,
) -> Result<(), Memory>
    ensures { OnOk result (KeepsMore lists.old.items tag (lent_clocked access.now) lists.new.items) }
{
    match lists.iter().position(|alike| alike.has(access, tag)) {
        Some(place) => lists[place].add(access, tag),
        None => {
            let mut alike = Alike::new(*lists.allocator(), tag, access.class, access.item.group);
            alike.add(access, tag)?;
            lists.push(alike)?;
            Ok(())
        }
    }
}

impl<A: Allocator + Copy> TagPairs<A> {
    /// No accesses.
    pub(crate) fn new(alloc: A) -> TagPairs<A>
        ensures { (tag_of : EventId → ℕ) (w : AnyWord) → StandsForTags tag_of w [] result }
    {
        TagPairs {
            lists: Vec::new(alloc),
            found: Vec::new(alloc),
        }
    }

    /// Adds an access to the word, which has this tag and comes after all others.
    pub(crate) fn add(&mut self, access: &LentAccess<'_, A>, tag: u128) -> Result<(), Memory>
        ensures { OnOk result (IsTagAdded (lent_clocked access.now) tag self.old self.new) }
    {
        find_races(&mut self.found, &self.lists, access, tag)?;
        keep(&mut self.lists, access, tag)
    }
}
