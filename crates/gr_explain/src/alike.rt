//! The accesses to a word that have one tag and one class.

ghost use Rattle.std.specs.Prelude.{◌≡◌, ◌↔◌, ◌++◌, ◌∷◌, [], IsTrue, OnOk, map};
ghost use Rattle.std.specs.List.{find};
ghost use Rattle.gr_shadow.specs.Clashes.{event_of};
ghost use Rattle.gr_shadow.specs.Lent.{lent_clocked};
ghost use Rattle.gr_explain.specs.Alike as spec;
ghost use Rattle.gr_explain.specs.Alike.{KeepsEvents, event_clashes, is_sought, no_events};

use gr_model::class::{Class, exempt};
use gr_model::event::{EventId, ItemId};
use gr_model::memory::Memory;
use gr_shadow::lent::LentAccess;
use indexmap::IndexMap;
use std::alloc::{Allocator, Global};
use std::hash::{BuildHasherDefault, FoldHasher};
use std::marker::Model;

/// The accesses to a word that have one tag and one class: of each item the one with the greatest index. A later access that
/// clashes with another one of the item clashes with this one too.
#[derive(Drop)]
#[derive_where(Debug)]
pub(crate) struct Alike<A: Allocator = Global> {
    tag: u128,
    class: Class,
    /// The work-group of all of them, if they are of one.
    only: Option<u16>,
    indexes: IndexMap<ItemId, u32, BuildHasherDefault<FoldHasher>, A>,
}

impl<A: Allocator> Model for Alike<A> {
    ghost use Rattle.std.specs.Prelude.{map};
    ghost use Rattle.gr_explain.specs.Alike.{AlikeEvents, AreOfOnly, entry_event};

    ghost Value = { AlikeEvents };

    ghost view = { λ s. record { tag = s.tag; class = s.class; events = map entry_event s.indexes.entries } };

    ghost invariant = { λ s. AreOfOnly s.only (map entry_event s.indexes.entries) };
}

/// The greater of an index and one that was kept, if there is one.
fn greatest(kept: Option<u32>, index: u32) -> u32
    ensures { result ≡ spec.greatest kept index }
{
    kept.map_or(index, |kept| if kept < index { index } else { kept })
}

/// The group of all events, if they are of one, after one more event of this group.
fn only_with(only: Option<u16>, group: u16) -> Option<u16>
    ensures { result ≡ spec.only_with only group }
{
    only.filter(|kept| *kept == group)
}

impl<A: Allocator + Copy> Alike<A> {
    /// No accesses of a tag and a class. The first one will be of this group.
    pub(crate) fn new(alloc: A, tag: u128, class: Class, group: u16) -> Alike<A>
        ensures { result ≡ no_events tag class }
    {
        Alike {
            tag,
            class,
            only: Some(group),
            indexes: IndexMap::new(alloc),
        }
    }
}

impl<A: Allocator> Alike<A> {
    /// The tag.
    pub(crate) fn tag(&self) -> u128
        ensures { result ≡ self.now.tag }
    {
        self.tag
    }

    /// Whether an access, which has this tag, belongs here.
    pub(crate) fn has(&self, access: &LentAccess<'_, A>, tag: u128) -> bool
        ensures { IsTrue result ↔ ((self.now.tag ≡ tag) × (self.now.class ≡ access.now.class)) }
    {
        self.tag == tag && self.class == access.class
    }

    /// An event of these with which a later access to the word clashes: one of another group, if `two`. If accesses of the two classes
    /// are exempt in any two groups, none clashes.
    pub(crate) fn clashing(&self, access: &LentAccess<'_, A>, two: bool) -> Option<EventId>
        ensures { result ≡ find (is_sought two self.now.class (lent_clocked access.now)) self.now.events }
    {
        if exempt(self.class, 0, access.class, 1) {
            return None;
        }
        if two && self.only == Some(access.item.group) {
            return None;
        }
        self.indexes
            .iter()
            .map(|entry| EventId {
                at: *entry.0,
                index: *entry.1,
            })
            .find(|event| {
                (!two || event.at.group != access.item.group) && clashes(self.class, *event, access)
            })
    }

    /// Adds an access, which has this tag.
    /// Requires: it belongs here (`has`).
    pub(crate) fn add(&mut self, access: &LentAccess<'_, A>, tag: u128) -> Result<(), Memory>
        requires tag { self.old.tag ≡ tag }
        requires class { self.old.class ≡ access.now.class }
        ensures tag { OnOk result ((self.new.tag ≡ tag) × (self.new.tag ≡ self.old.tag)) }
        ensures class { OnOk result ((self.new.class ≡ access.now.class) × (self.new.class ≡ self.old.class)) }
        ensures events { OnOk result (KeepsEvents self.new.events (self.old.events ++ event_of (lent_clocked access.now) ∷ [])) }
    {
        prove!(self.tag == tag);
        let kept = self.indexes.get(&access.item).copied();
        self.indexes
            .insert(access.item, greatest(kept, access.index))?;
        self.only = only_with(self.only, access.item.group);
        Ok(())
    }
}

/// Whether a later access to a word clashes with an event of a class: they are of two items, they are not exempt, and the access's clock
/// does not count the event.
pub(crate) fn clashes<A: Allocator>(
    class: Class,
    event: EventId,
    access: &LentAccess<'_, A>,
) -> bool
    ensures { result ≡ event_clashes class (lent_clocked access.now) event }
{
    event.at != access.item
        && !exempt(class, event.at.group, access.class, access.item.group)
        && !access.clock.covers(event.at, event.index)
}
