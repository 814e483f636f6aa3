//! What was taken of a launch's streams.
//!
//! Invariant: there is a group for each size of the shape, with that size, and each has a prefix of a list that it may have.

ghost use Rattle.std.specs.Prelude.{[], ◌≡◌, ◌≢◌, ◌↔◌, ◌<◌, ◌≤◌, ℕ, Some, IsTrue, IfOk, IfErr, MatchOption, OnOk, OnErr, filter, length, option_and_then};
ghost use Rattle.gr_model.specs.declared.limits.TheConstants.{MOST_RECORDS};
ghost use Rattle.gr_model.specs.Prelude.{CanAdd, put, ArePrefixes, is_complete, list_of, place_of, trace_of, event_word, is_release};
ghost use Rattle.gr_model.specs.Prelude.{is_barrier, IsCut, release_place};
ghost use Rattle.gr_lanes.specs.Indices.{empty, record_of};
ghost use Rattle.gr_lanes.specs.declared.seq_error.SeqError.TheVariants.{Memory as OutOfMemory};
ghost use Rattle.gr_lanes.specs.Kept.{NoneDiffers};
ghost use Rattle.gr_lanes.specs.Remembered.{HaveAllCome, IsEventRemembered, IsRemembered, IsWhole, decided_of, deciding, forgetting, forgotten_of, remembering, with_group};
ghost use Rattle.gr_lanes.specs.Takes.{nothing_taken, with_record, IsEventButItem, IsMereAccess, CanTake, IsTakeFault};

use crate::group::Group;
use crate::seq_error::SeqError;
use gr_model::event::{Event, EventId, ItemId, Name, Word, word_of};
use gr_model::growing::GrowingShape;
use gr_model::memory::Memory;
use gr_model::report::Divergence;
use gr_model::shape::Shape;
use std::alloc::{Allocator, Global};
use std::marker::Model;

/// What was taken of a launch's streams. Contracts see the sizes of the groups, the records of each group in the order in which
/// they were taken, how many of the first instances of each group's barriers are forgotten, and which of those are divergent.
#[derive(Drop)]
#[derive_where(Debug)]
pub struct Lanes<A: Allocator = Global> {
    shape: GrowingShape<A>,
    groups: Vec<Group<A>, A>,
}

impl<A: Allocator> Model for Lanes<A> {
    ghost use Rattle.gr_lanes.specs.Indices.{remembered_of, AreGroups};
    ghost use Rattle.gr_lanes.specs.Remembered.{Remembered};

    ghost Value = { Remembered };

    ghost view = { λ l. remembered_of l.shape l.groups.items };

    ghost invariant = { λ l. AreGroups l.shape l.groups.items };
}

impl<A: Allocator + Copy> Lanes<A> {
    /// A launch of which no group has come. It takes no memory.
    pub fn without_groups(alloc: A) -> Lanes<A>
        ensures streams { result.streams ≡ nothing_taken [] }
        ensures whole { IsWhole result }
    {
        Lanes {
            shape: GrowingShape::new(alloc),
            groups: Vec::new(alloc),
        }
    }

    /// The groups of a shape, before their first records.
    ///
    /// # Errors
    /// `Memory`: out of memory.
    pub fn new(alloc: A, shape: Shape<A>) -> Result<Lanes<A>, Memory>
        ensures nothing { IfOk result (λ l. l.streams ≡ nothing_taken shape) }
        ensures whole { IfOk result (λ l. IsWhole l) }
        ensures prefixes { IfOk result (λ l. ArePrefixes l.streams) }
    {
        let mut groups = Vec::new(alloc);
        for group in 0..shape.groups() {
            groups.push(Group::new(alloc, shape.items(group)))?;
        }
        let shape = GrowingShape::of(shape);
        Ok(Lanes { shape, groups })
    }

    /// The same with one more group, which has this many items. Groups below it that were not there come too, without items.
    /// Requires: the group has not come, and a launch may have it together with the others.
    ///
    /// # Errors
    /// `Memory`: out of memory.
    pub fn with_group(self, alloc: A, group: u16, items: u16) -> Result<Lanes<A>, Memory>
        requires { CanAdd self.streams group items }
        ensures comes { IfOk result (λ l. l ≡ with_group self group items) }
        ensures prefixes { IfOk result (λ l. ArePrefixes l.streams) }
    {
        let Lanes { shape, mut groups } = self;
        put_group(alloc, &mut groups, group, items)?;
        let shape = shape.with_group(group, items)?;
        Ok(Lanes { shape, groups })
    }
}

/// Puts a group with this many items in its place. Groups below it that are not there come too, without items.
///
/// # Errors
/// `Memory`: out of memory.
fn put_group<A: Allocator + Copy>(
    alloc: A,
    groups: &mut Vec<Group<A>, A>,
    group: u16,
    items: u16,
) -> Result<(), Memory>
    ensures { OnOk result (groups.new.items ≡ put (empty 0) groups.old.items group (empty items)) }
{
    let added = Group::new(alloc, items);
    while groups.len() <= usize::from(group) {
        groups.push(Group::new(alloc, 0))?;
    }
    groups[usize::from(group)] = added;
    Ok(())
}

impl<A: Allocator> Lanes<A> {
    /// The sizes of the groups that have come.
    pub fn shape(&self) -> &GrowingShape<A>
        ensures sizes { result.now ≡ self.now.streams.sizes }
        ensures prefixes { ArePrefixes self.now.streams }
    {
        &self.shape
    }

    /// How many records of a group were taken; 0 where there is no such group.
    pub fn taken(&self, group: u16) -> u32
        ensures { result ≡ length (list_of self.now.streams group) }
    {
        match self.groups.get(usize::from(group)) {
            None => 0,
            Some(group) => group.taken(),
        }
    }

    /// Whether a group's end was taken.
    pub fn is_complete(&self, group: u16) -> bool
        ensures { result ≡ is_complete (list_of self.now.streams group) }
    {
        match self.groups.get(usize::from(group)) {
            None => false,
            Some(group) => group.is_complete(),
        }
    }

    /// Whether a group's end was taken and says that its stream was cut.
    pub fn is_cut(&self, group: u16) -> bool
        ensures { IsTrue result ↔ IsCut self.now.streams group }
    {
        match self.groups.get(usize::from(group)) {
            None => false,
            Some(group) => group.is_cut(),
        }
    }

    /// How many of the first instances of a group's barriers are forgotten; 0 where there is no such group.
    #[inline(always)]
    pub fn forgotten(&self, group: u16) -> u32
        ensures { result ≡ forgotten_of self.now group }
    {
        match self.groups.get(usize::from(group)) {
            None => 0,
            Some(group) => group.forgotten(),
        }
    }

    /// The divergent instances among the forgotten ones of a group.
    pub fn decided(&self, group: u16) -> &[Divergence]
        requires { group < length self.now.streams.sizes }
        ensures { result.now ≡ decided_of self.now group }
    {
        self.groups[usize::from(group)].decided()
    }

    /// The index of the release of this name in its item's trace, or `None` where no such release was taken.
    pub fn release_at(&self, name: Name) -> Option<u32>
        ensures { result ≡ release_place self.now.streams name }
    {
        let group = self.groups.get(usize::from(name.at.group))?;
        group.release_at(name.at.item, name.release)
    }

    /// The record of the release of this name, or `None` where no such release was taken.
    pub fn release_event(&self, name: Name) -> Option<Event>
        ensures { result ≡ record_of self.now.streams is_release name.at name.release }
    {
        let group = self.groups.get(usize::from(name.at.group))?;
        group.release_event(name.at.item, name.release)
    }

    /// The word of the release of this name, or `None` where no such release was taken.
    pub fn release_word(&self, name: Name) -> Option<Word>
        ensures { result ≡ option_and_then (event_word name.at.group) (record_of self.now.streams is_release name.at name.release) }
    {
        word_of(name.at.group, &self.release_event(name)?)
    }

    /// The record of an item's barrier with this number, counted from 0, or `None` where no such barrier was taken.
    /// Requires: its instance is not forgotten.
    #[inline(always)]
    pub fn barrier_event(&self, item: ItemId, number: u32) -> Option<Event>
        requires { IsRemembered self.now item number }
        ensures { result ≡ record_of self.now.streams is_barrier item number }
    {
        let group = self.groups.get(usize::from(item.group))?;
        group.barrier_event(item.item, number)
    }

    /// Whether it is known that all items that came to an instance came with one site and the same flags, and that all came if the
    /// group has ended. It is quick, and may answer false though they did.
    #[inline(always)]
    pub fn none_differs(&self, group: u16, number: u32) -> bool
        requires group { group < length self.now.streams.sizes }
        requires remembered { forgotten_of self.now group ≤ number }
        ensures { IsTrue result → NoneDiffers self.now.streams group number }
    {
        match self.groups.get(usize::from(group)) {
            None => false,
            Some(group) => group.none_differs(number),
        }
    }

    /// The index of an item's barrier with this number, counted from 0, in the item's trace, or `None` where no such barrier was
    /// taken.
    /// Requires: its instance is not forgotten.
    pub fn barrier_at(&self, item: ItemId, number: u32) -> Option<u32>
        requires { IsRemembered self.now item number }
        ensures { result ≡ place_of self.now.streams is_barrier item number }
    {
        let group = self.groups.get(usize::from(item.group))?;
        group.barrier_at(item.item, number)
    }

    /// Which of its item's releases an event is, or `None` where it is no release.
    pub fn release_number(&self, event: EventId) -> Option<u32>
        ensures { MatchOption result ((k : ℕ) → place_of self.now.streams is_release event.at k ≢ Some event.index) (λ k. place_of self.now.streams is_release event.at k ≡ Some event.index) }
    {
        let group = self.groups.get(usize::from(event.at.group))?;
        group.release_number(event.at.item, event.index)
    }

    /// Which of its item's barriers an event is, or `None` where it is no barrier.
    /// Requires: its instance is not forgotten.
    pub fn barrier_number(&self, event: EventId) -> Option<u32>
        requires { IsEventRemembered self.now event }
        ensures { MatchOption result ((k : ℕ) → place_of self.now.streams is_barrier event.at k ≢ Some event.index) (λ k. place_of self.now.streams is_barrier event.at k ≡ Some event.index) }
    {
        let group = self.groups.get(usize::from(event.at.group))?;
        group.barrier_number(event.at.item, event.index)
    }

    /// How many barriers of an item were taken.
    #[inline(always)]
    pub fn barrier_count(&self, item: ItemId) -> u32
        ensures { result ≡ length (filter is_barrier (trace_of self.now.streams item)) }
    {
        match self.groups.get(usize::from(item.group)) {
            None => 0,
            Some(group) => group.barrier_count(item.item),
        }
    }

    /// Why a record can't be the next of a group, or `None` where it can.
    pub fn refusal(&self, group: u16, event: &Event) -> Option<SeqError>
        ensures fault { MatchOption result (CanTake self.now.streams group event.now) (λ e. IsTakeFault self.now.streams group event.now e) }
        ensures memory { result ≢ Some OutOfMemory }
        ensures prefixes { ArePrefixes self.now.streams }
    {
        if group >= self.shape.groups() {
            return Some(SeqError::UnknownGroup);
        }
        if self.is_complete(group) {
            return Some(SeqError::AfterEnd(group));
        }
        if event.item >= self.shape.items(group) {
            return Some(SeqError::UnknownItem);
        }
        None
    }

    /// Takes the next record of a group. It may be taken, and is a mere access and not the group's first record. This takes no
    /// memory.
    pub fn take_access(&mut self, group: u16, event: &Event)
        requires can { CanTake self.old.streams group event.now }
        requires access { IsMereAccess event.now }
        requires begun { list_of self.old.streams group ≢ [] }
        requires good { IsEventButItem event.now }
        requires room { length (list_of self.old.streams group) < MOST_RECORDS }
        ensures taken { self.new ≡ remembering self.old (with_record self.old.streams group event.now) }
        ensures prefixes { ArePrefixes self.new.streams }
    {
        self.groups[usize::from(group)].take_access(event);
    }

    /// Takes the next record of a group, which may be taken.
    ///
    /// # Errors
    /// `Memory`: out of memory. Nothing is then taken.
    pub fn take_accepted(&mut self, group: u16, event: &Event) -> Result<(), Memory>
    where
        A: Copy,
        requires can { CanTake self.old.streams group event.now }
        requires good { IsEventButItem event.now }
        requires room { length (list_of self.old.streams group) < MOST_RECORDS }
        ensures ok { OnOk result (self.new ≡ remembering self.old (with_record self.old.streams group event.now)) }
        ensures unchanged { OnErr result (self.new ≡ self.old) }
        ensures prefixes { ArePrefixes self.new.streams }
    {
        self.groups[usize::from(group)].take(event)?;
        Ok(())
    }

    /// Takes the next record of a group.
    ///
    /// # Errors
    /// The first of `UnknownGroup`, `AfterEnd` with the group, `UnknownItem` and `Memory` that is there. Nothing is then
    /// taken.
    pub fn take(&mut self, group: u16, event: Event) -> Result<(), SeqError>
    where
        A: Copy,
        requires good { IsEventButItem event }
        requires room { length (list_of self.old.streams group) < MOST_RECORDS }
        ensures ok { OnOk result (CanTake self.old.streams group event × (self.new ≡ remembering self.old (with_record self.old.streams group event))) }
        ensures err { IfErr result (λ e. IsTakeFault self.old.streams group event e) }
        ensures unchanged { OnErr result (self.new ≡ self.old) }
        ensures prefixes { ArePrefixes self.new.streams }
    {
        if let Some(refusal) = self.refusal(group, &event) {
            return Err(refusal);
        }
        self.take_accepted(group, &event)?;
        Ok(())
    }

    /// Forgets the first instance of a group's barriers that is not forgotten yet. All items came to it. It counts as not divergent.
    pub fn forget(&mut self, group: u16)
        requires { HaveAllCome self.old.streams group (forgotten_of self.old group) }
        ensures forgotten { self.new ≡ forgetting self.old group }
    {
        self.groups[usize::from(group)].forget();
    }

    /// Forgets the first instance of a group's barriers that is not forgotten yet. All items came to it. It is kept as this
    /// divergence.
    ///
    /// # Errors
    /// `Memory`: out of memory. Nothing is then forgotten.
    pub fn decide(&mut self, divergence: Divergence) -> Result<(), Memory>
        requires { HaveAllCome self.old.streams divergence.group (forgotten_of self.old divergence.group) }
        ensures ok { OnOk result (self.new ≡ deciding self.old divergence) }
        ensures err { OnErr result (self.new ≡ self.old) }
    {
        self.groups[usize::from(divergence.group)].decide(divergence)?;
        Ok(())
    }

    /// Once a group's end was taken: frees what is kept of its last items, as far as it says no more than how many barriers they
    /// have.
    pub fn close(&mut self, group: u16)
        ensures { self.new ≡ self.old }
    {
        let place = usize::from(group);
        if place < self.groups.len() {
            self.groups[place].close();
        }
    }
}
