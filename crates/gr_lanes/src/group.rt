//! What was taken of one work-group: the number of its records, what its end says, and what is kept of its items.
//!
//! Invariant: the records are a prefix of a list that the group may have. Each item has a lane, which keeps all its barriers that are
//! not forgotten; for each barrier that said the same as the first barrier of its instance, that first one is kept. After the end was
//! taken, the last lanes may be gone, as far as they have no releases and all their barriers are forgotten. The list itself exists only
//! in proofs.

ghost use Rattle.std.specs.Prelude.{◌≢◌, ◌≡◌, ◌↔◌, ◌∷◌, ◌++◌, ◌<◌, ◌≤◌, ◌+◌, ℕ, List, [], true, Some, IsTrue, MatchOption, OnOk, OnErr, filter, length, map, slice_get, slice_index_or};
ghost use Rattle.std.specs.List.{list_all};
ghost use Rattle.gr_model.specs.declared.limits.TheConstants.{MOST_RECORDS};
ghost use Rattle.gr_model.specs.Access as model;
ghost use Rattle.gr_model.specs.Barriers as model_barriers;
ghost use Rattle.gr_model.specs.Prelude.{IsEventOk, is_complete, is_of, places_from};
ghost use Rattle.gr_lanes.specs.Indices.{EndsCut, IsIndexKeptOf, IsKeptOf, IsNumberAmong, end_of};
ghost use Rattle.gr_lanes.specs.declared.bare.Bare.{Bare as BareOf};
ghost use Rattle.gr_lanes.specs.Kept.{CameWith, HasNothing, IsGone, IsLaneOf, begun, forgetting_one, is_as_first, nothing_kept};
ghost use Rattle.gr_lanes.specs.Takes.{IsMereAccess};

use crate::bare::Bare;
use crate::lane::Lane;
use gr_model::event::{Event, Kind};
use gr_model::history::History;
use gr_model::memory::Memory;
use gr_model::report::Divergence;
use std::alloc::{Allocator, Global};
use std::collections::VecDeque;
use std::marker::Model;

/// What was taken of a work-group. Contracts see how many items it has, its records, how many of its first instances are
/// forgotten, and which of those are divergent.
#[derive(Drop)]
#[derive_where(Debug)]
pub(crate) struct Group<A: Allocator = Global> {
    /// How many items the group has.
    size: u16,
    list: History<Event>,
    taken: u32,
    /// Once its end was taken: whether its stream was cut.
    end: Option<bool>,
    /// What is kept of each item.
    lanes: Vec<Lane<A>, A>,
    /// For each instance that is not forgotten: what the first barrier said that came to it.
    firsts: VecDeque<Bare, A>,
    /// How many of its first instances are forgotten.
    forgotten: u32,
    /// The divergent instances among the forgotten ones.
    decided: Vec<Divergence, A>,
}

impl<A: Allocator> Model for Group<A> {
    ghost use Rattle.gr_lanes.specs.Indices.{GroupList};
    ghost use Rattle.gr_lanes.specs.Kept.{IsKept};

    ghost Value = { GroupList };

    ghost view = { λ g. record { size = g.size; list = g.list; forgotten = g.forgotten; decided = g.decided.items } };

    ghost invariant = { λ g. IsKept g.size g.forgotten g.firsts.items g.lanes.items g.list g.taken g.end };
}

/// If a record is an end: whether it says that its stream was cut.
fn end_of(event: &Event) -> Option<bool>
    ensures { result ≡ end_of event.now }
{
    match event.kind {
        Kind::End { cut } => Some(cut),
        _ => None,
    }
}

/// Makes this many lanes of items without events, where there are fewer lanes.
fn begin<A: Allocator + Copy>(lanes: &mut Vec<Lane<A>, A>, items: u16) -> Result<(), Memory>
    ensures ok { OnOk result (lanes.new.items ≡ begun items lanes.old.items) }
    ensures err { OnErr result (lanes.new.items ≡ lanes.old.items) }
{
    if lanes.len() < usize::from(items) {
        let alloc = *lanes.allocator();
        let mut all = Vec::with_capacity(alloc, usize::from(items))?;
        for _item in 0..items {
            all.push(Lane::new(alloc))?;
        }
        *lanes = all;
    }
    Ok(())
}

/// Whether each lane agrees with the first of an instance (`Lane::is_as_first`).
#[inline(always)]
fn are_as_first<A: Allocator>(lanes: &[Lane<A>], number: u32, ended: bool) -> bool
    ensures { result ≡ list_all (λ k. is_as_first number ended k) lanes.now }
{
    lanes.iter().all(|lane| lane.is_as_first(number, ended))
}

/// Forgets one more barrier of each lane, where this many are forgotten.
fn forget_one<A: Allocator>(lanes: &mut [Lane<A>], forgotten: u32)
    requires few { forgotten < 4_294_967_295 }
    ensures { lanes.new ≡ map (forgetting_one forgotten) lanes.old }
{
    for lane in lanes.iter_mut() {
        lane.forget(forgotten);
    }
}

/// How many lanes are left without the spent ones at the end.
fn lanes_left<A: Allocator>(lanes: &[Lane<A>]) -> usize
    ensures within { result ≤ length lanes.now }
    ensures spent { (i : ℕ) → result ≤ i → i < length lanes.now → HasNothing (slice_index_or lanes.now i nothing_kept) }
{
    let mut left = lanes.len();
    while left > 0 && lanes[left - 1].is_spent() {
        left -= 1;
    }
    left
}

impl<A: Allocator + Copy> Group<A> {
    /// A group with this many items, before its first record. It takes no memory.
    pub(crate) fn new(alloc: A, size: u16) -> Group<A>
        ensures { result ≡ record { size = size; list = []; forgotten = 0; decided = [] } }
    {
        Group {
            size,
            list: History::new(),
            taken: 0,
            end: None,
            lanes: Vec::new(alloc),
            firsts: VecDeque::new(alloc),
            forgotten: 0,
            decided: Vec::new(alloc),
        }
    }

    /// Takes the group's next record.
    ///
    /// # Errors
    /// `Memory`: out of memory. The group is then as it was.
    #[inline(always)]
    pub(crate) fn take(&mut self, event: &Event) -> Result<(), Memory>
        requires good { IsEventOk event.now self.old.size }
        requires before_end { ¬ IsTrue (is_complete self.old.list) }
        requires room { length self.old.list < MOST_RECORDS }
        ensures ok { OnOk result (self.new ≡ record { size = self.old.size; list = self.old.list ++ event.now ∷ []; forgotten = self.old.forgotten; decided = self.old.decided }) }
        ensures err { OnErr result (self.new ≡ self.old) }
    {
        begin(&mut self.lanes, self.size)?;
        self.lanes[usize::from(event.item)].take(&mut self.firsts, self.forgotten, event)?;
        self.list.push(event);
        self.taken += 1;
        self.end = end_of(event);
        Ok(())
    }
}

impl<A: Allocator> Group<A> {
    /// How many of its records were taken.
    pub(crate) fn taken(&self) -> u32
        ensures { result ≡ length self.now.list }
    {
        self.taken
    }

    /// Whether its end was taken.
    #[tactic(auto, using(crate::proofs::IndexLemmas::end_is_complete))]
    pub(crate) fn is_complete(&self) -> bool
        ensures { result ≡ is_complete self.now.list }
    {
        self.end.is_some()
    }

    /// Whether its end was taken and says that its stream was cut.
    pub(crate) fn is_cut(&self) -> bool
        ensures { IsTrue result ↔ EndsCut self.now.list }
    {
        self.end == Some(true)
    }

    /// How many of its first instances are forgotten.
    pub(crate) fn forgotten(&self) -> u32
        ensures { result ≡ self.now.forgotten }
    {
        self.forgotten
    }

    /// The divergent instances among the forgotten ones.
    pub(crate) fn decided(&self) -> &[Divergence]
        ensures { result.now ≡ self.now.decided }
    {
        &self.decided
    }

    /// The lane of an item, or `None` where it has none.
    #[inline(always)]
    fn lane(&self, item: u16) -> Option<&Lane<A>>
        ensures { MatchOption result (IsGone self.now.size self.now.forgotten self.now.list item) (λ k. (firsts : List BareOf) × IsLaneOf self.now.forgotten firsts self.now.list item k.now) }
    {
        self.lanes.get(usize::from(item))
    }

    /// The index of an item's release with this number.
    #[tactic(auto, using(crate::proofs::KeptLemmas::releases_read))]
    pub(crate) fn release_at(&self, item: u16, number: u32) -> Option<u32>
        ensures { result ≡ slice_get (places_from model.is_release 0 (filter (is_of item) self.now.list)) number }
    {
        self.lane(item)?.release(number)
    }

    /// The index of an item's barrier with this number.
    pub(crate) fn barrier_at(&self, item: u16, number: u32) -> Option<u32>
        requires { IsKeptOf self.now.forgotten self.now.list item number }
        ensures { result ≡ slice_get (places_from model_barriers.is_barrier 0 (filter (is_of item) self.now.list)) number }
    {
        self.lane(item)?.barrier(number - self.forgotten)
    }

    /// The record of an item's release with this number.
    #[tactic(auto, using(crate::proofs::KeptLemmas::released_read))]
    pub(crate) fn release_event(&self, item: u16, number: u32) -> Option<Event>
        ensures { result ≡ slice_get (filter model.is_release (filter (is_of item) self.now.list)) number }
    {
        self.lane(item)?.release_event(number)
    }

    /// The record of an item's barrier with this number.
    #[inline(always)]
    pub(crate) fn barrier_event(&self, item: u16, number: u32) -> Option<Event>
        requires { IsKeptOf self.now.forgotten self.now.list item number }
        ensures { result ≡ slice_get (filter model_barriers.is_barrier (filter (is_of item) self.now.list)) number }
    {
        let lane = self.lanes.get(usize::from(item))?;
        lane.barrier_event(&self.firsts, self.forgotten, item, number)
    }

    /// Whether it is known that all items that came to an instance said the same, and that all came if the group has ended.
    #[inline(always)]
    pub(crate) fn none_differs(&self, number: u32) -> bool
        requires { self.now.forgotten ≤ number }
        ensures { IsTrue result → (b : BareOf) × ((i : ℕ) → i < self.now.size → CameWith (slice_get (filter model_barriers.is_barrier (filter (is_of i) self.now.list)) number) (slice_get (places_from model_barriers.is_barrier 0 (filter (is_of i) self.now.list)) number) (is_complete self.now.list) i b) }
    {
        if self.lanes.len() != usize::from(self.size) {
            return false;
        }
        are_as_first(&self.lanes, number, self.is_complete())
    }

    /// Which of an item's releases the event with this index is, or `None` where it is no release.
    pub(crate) fn release_number(&self, item: u16, index: u32) -> Option<u32>
        ensures { IsNumberAmong model.is_release self.now.list item index result }
    {
        self.lane(item)?.release_number(index)
    }

    /// Which of an item's barriers the event with this index is, or `None` where it is no barrier.
    pub(crate) fn barrier_number(&self, item: u16, index: u32) -> Option<u32>
        requires { IsIndexKeptOf self.now.forgotten self.now.list item index }
        ensures { IsNumberAmong model_barriers.is_barrier self.now.list item index result }
    {
        let place = self.lane(item)?.barrier_place(index)?;
        Some(self.forgotten + place)
    }

    /// How many barriers of an item were taken.
    #[inline(always)]
    #[tactic(auto, using(crate::proofs::KeptLemmas::barrier_counts))]
    pub(crate) fn barrier_count(&self, item: u16) -> u32
        ensures { result ≡ length (filter model_barriers.is_barrier (filter (is_of item) self.now.list)) }
    {
        match self.lane(item) {
            Some(lane) => self.forgotten + lane.barrier_count(),
            None if item < self.size => self.forgotten,
            None => 0,
        }
    }

    /// Takes the group's next record, a mere access that is not its first record. It takes no memory.
    pub(crate) fn take_access(&mut self, event: &Event)
        requires begun { self.old.list ≢ [] }
        requires good { IsEventOk event.now self.old.size }
        requires before_end { ¬ IsTrue (is_complete self.old.list) }
        requires room { length self.old.list < MOST_RECORDS }
        requires access { IsMereAccess event.now }
        ensures { self.new ≡ record { size = self.old.size; list = self.old.list ++ event.now ∷ []; forgotten = self.old.forgotten; decided = self.old.decided } }
    {
        self.lanes[usize::from(event.item)].add_access(event);
        self.list.push(event);
        self.taken += 1;
    }

    /// Forgets the first instance that is not forgotten yet. All items came to it, and it is not divergent.
    pub(crate) fn forget(&mut self)
        requires came { (i : ℕ) → i < self.old.size → (p : ℕ) × (slice_get (places_from model_barriers.is_barrier 0 (filter (is_of i) self.old.list)) self.old.forgotten ≡ Some p) }
        requires few { self.old.forgotten < MOST_RECORDS }
        ensures { self.new ≡ record { size = self.old.size; list = self.old.list; forgotten = self.old.forgotten + 1; decided = self.old.decided } }
    {
        forget_one(&mut self.lanes, self.forgotten);
        let _ = self.firsts.pop_front();
        self.forgotten += 1;
    }

    /// Forgets the first instance that is not forgotten yet. All items came to it, and it is divergent.
    ///
    /// # Errors
    /// `Memory`: out of memory. The group is then as it was.
    pub(crate) fn decide(&mut self, divergence: Divergence) -> Result<(), Memory>
        requires came { (i : ℕ) → i < self.old.size → (p : ℕ) × (slice_get (places_from model_barriers.is_barrier 0 (filter (is_of i) self.old.list)) self.old.forgotten ≡ Some p) }
        requires few { self.old.forgotten < MOST_RECORDS }
        ensures ok { OnOk result (self.new ≡ record { size = self.old.size; list = self.old.list; forgotten = self.old.forgotten + 1; decided = self.old.decided ++ divergence ∷ [] }) }
        ensures err { OnErr result (self.new ≡ self.old) }
    {
        self.decided.push(divergence)?;
        self.forget();
        Ok(())
    }

    /// Once the end was taken: frees what is kept of the last items, as far as it says no more than how many barriers they have.
    pub(crate) fn close(&mut self)
        ensures { self.new ≡ self.old }
    {
        if self.end.is_some() {
            let left = lanes_left(&self.lanes);
            self.lanes.truncate(left);
            self.lanes.shrink_to_fit();
        }
    }
}
