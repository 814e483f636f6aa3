//! The accesses of one class to a word that came so far.

ghost use Rattle.std.specs.Prelude.{◌≡◌, ◌≢◌, ◌↔◌, ◌⊎◌, IsTrue, MatchOption, OnOk, Some};
ghost use Rattle.gr_shadow.specs.Clashes as spec;
ghost use Rattle.gr_shadow.specs.Lent.{lent_clocked};
ghost use Rattle.gr_explain.specs.LeastRaces.{IsLeastOf, PairBelow};
ghost use Rattle.gr_explain.specs.Seen.{IsAmong, IsFirstOf, IsClashing, IsPairWith, IsPassed, nothing_seen};

use crate::indices::Indices;
use gr_model::class::{Class, exempt};
use gr_model::event::{EventId, ItemId};
use gr_model::memory::Memory;
use gr_model::race::{is_below, turned};
use gr_shadow::lent::LentAccess;
use std::alloc::{Allocator, Global};
use std::collections::BTreeMap;
use std::marker::Model;

/// The accesses of one class to a word.
#[derive(Drop)]
#[derive_where(Debug)]
pub(crate) struct Seen<A: Allocator = Global> {
    #[derive_where(skip)]
    alloc: A,
    class: Class,
    /// Of each item the indices of its events.
    items: BTreeMap<ItemId, Indices<A>, A>,
}

impl<A: Allocator> Model for Seen<A> {
    ghost use Rattle.gr_explain.specs.Seen.{SeenList};

    ghost Value = { SeenList };

    ghost view = { λ s. record { class = s.class; items = s.items.entries } };
}

/// The event of an access.
pub(crate) fn event_of<A: Allocator>(access: &LentAccess<'_, A>) -> EventId
    ensures { result ≡ spec.event_of (lent_clocked access.now) }
{
    EventId {
        at: access.item,
        index: access.index,
    }
}

/// Whether a pair comes before another.
fn is_pair_below(pair: (EventId, EventId), other: (EventId, EventId)) -> bool
    ensures { IsTrue result ↔ PairBelow pair other }
{
    is_below(pair.0, other.0) || (pair.0 == other.0 && is_below(pair.1, other.1))
}

/// The lesser of a pair and the least one so far, if there is any.
fn lesser(least: Option<(EventId, EventId)>, pair: (EventId, EventId)) -> (EventId, EventId)
    ensures { MatchOption least (result ≡ pair) (λ l. ((result ≡ pair) × PairBelow pair l) ⊎ ((result ≡ l) × ¬ PairBelow pair l)) }
{
    match least {
        Some(least) if !is_pair_below(pair, least) => least,
        _ => pair,
    }
}

/// Whether the least pair so far is below each pair of this event with an event of this item, or of a later item: its first event is of an
/// earlier item, and comes before this event.
fn is_passed(least: Option<(EventId, EventId)>, item: ItemId, event: EventId) -> bool
    ensures { IsTrue result → IsPassed least item event }
{
    least.is_some_and(|(first, _)| first.at < item && is_below(first, event))
}

/// The first of an item's events of a class, of which these are the indices, with which a later access clashes.
fn first_of<A: Allocator>(
    class: Class,
    item: ItemId,
    indices: &Indices<A>,
    access: &LentAccess<'_, A>,
) -> Option<EventId>
    ensures { IsFirstOf class item indices.now (lent_clocked access.now) result }
{
    if item == access.item || exempt(class, item.group, access.class, access.item.group) {
        return None;
    }
    let index = indices.first_from(access.clock.get(item))?;
    Some(EventId { at: item, index })
}

impl<A: Allocator + Copy> Seen<A> {
    /// No accesses of a class.
    pub(crate) fn new(alloc: A, class: Class) -> Seen<A>
        ensures { result ≡ nothing_seen class }
    {
        Seen {
            alloc,
            class,
            items: BTreeMap::new(alloc),
        }
    }

    /// Whether an access is of the class.
    pub(crate) fn has(&self, access: &LentAccess<'_, A>) -> bool
        ensures { IsTrue result ↔ (access.now.class ≡ self.now.class) }
    {
        access.class == self.class
    }

    /// Adds an access.
    /// Requires: it is of the class (`has`).
    pub(crate) fn add(&mut self, access: &LentAccess<'_, A>) -> Result<(), Memory>
        requires { access.now.class ≡ self.old.class }
        ensures class { OnOk result (self.new.class ≡ access.now.class) }
        ensures same { OnOk result (self.new.class ≡ self.old.class) }
        ensures events { OnOk result ((e : EventId) → IsAmong self.new.items e ↔ ((e ≡ spec.event_of (lent_clocked access.now)) ⊎ IsAmong self.old.items e)) }
    {
        let none = Indices::new(self.alloc);
        let indices = self.items.entry(access.item)?.or_insert(none);
        indices.add(access.index)?;
        Ok(())
    }
}

impl<A: Allocator> Seen<A> {
    /// Whether there are items, all of one work-group.
    fn is_within(&self, group: u16) -> bool
        ensures { IsTrue result → (e : EventId) → IsAmong self.now.items e → e.at.group ≡ group }
    {
        match (self.items.first_key_value(), self.items.last_key_value()) {
            (Some((first, _)), Some((last, _))) => first.group == group && last.group == group,
            _ => false,
        }
    }

    /// Whether the classes alone show that a later access clashes with none of these: such accesses are exempt in any two work-groups, or
    /// they are exempt in one work-group and all of these are of the access's own. A look at each item finds the same.
    fn is_exempt(&self, access: &LentAccess<'_, A>) -> bool
        ensures { IsTrue result → (e : EventId) → ¬ IsClashing self.now (lent_clocked access.now) e }
    {
        let group = access.item.group;
        exempt(self.class, 0, access.class, 1)
            || (exempt(self.class, group, access.class, group) && self.is_within(group))
    }

    /// The least of these pairs: the least one so far, if there is one, and those of a later access with the ones with which it clashes.
    /// Of the latter, the least is that of the first event.
    pub(crate) fn with_pairs(
        &self,
        access: &LentAccess<'_, A>,
        least: Option<(EventId, EventId)>,
    ) -> Option<(EventId, EventId)>
        ensures { IsLeastOf (λ p. (least ≡ Some p) ⊎ IsPairWith self.now (lent_clocked access.now) p) result }
    {
        if self.is_exempt(access) {
            return least;
        }
        let event = event_of(access);
        for (item, indices) in self.items.iter() {
            if is_passed(least, *item, event) {
                return least;
            }
            if let Some(earlier) = first_of(self.class, *item, indices, access) {
                return Some(lesser(least, turned(earlier, event)));
            }
        }
        least
    }
}
