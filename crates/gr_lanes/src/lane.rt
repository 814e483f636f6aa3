//! What is kept of one work-item's events.
//!
//! A lane knows how many events an item has, and which of them are releases and barriers. It has the records of its releases,
//! and the indices of those barriers whose instances are not forgotten. Most barriers say the same as the first barrier of their
//! instance, which the group keeps once. So a lane counts how many of its first barriers are forgotten or say that, and keeps what
//! the later ones said.

ghost use Rattle.std.specs.Prelude.{◌≡◌, ◌≢◌, ◌<◌, ◌≤◌, ◌-◌, ℕ, Some, None, [], false, true, IsTrue, MatchOption, OnOk, OnErr, length, map, slice_get};
ghost use Rattle.gr_model.specs.Barriers as model;
ghost use Rattle.gr_lanes.specs.Indices.{AreRising, taking, with_event};
ghost use Rattle.gr_lanes.specs.Kept as kept;
ghost use Rattle.gr_lanes.specs.Kept.{Arrives, barrier_more, forgetting_one, HasNothing, IsLane, kept_with, nothing_kept};

use crate::bare::Bare;
use crate::kinds::{is_barrier, is_release};
use gr_model::event::Event;
use gr_model::history::History;
use gr_model::memory::Memory;
use std::alloc::{Allocator, Global};
use std::collections::VecDeque;
use std::marker::Model;

/// How many events an item has, and its releases and its barriers among them.
#[derive(Drop)]
#[derive_where(Debug)]
pub(crate) struct Lane<A: Allocator = Global> {
    count: u32,
    /// How many of its first barriers are forgotten, or said the same as the first of their instance.
    alike: u32,
    releases: Vec<u32, A>,
    released: Vec<Event, A>,
    /// The indices of its barriers that are not forgotten.
    barriers: VecDeque<u32, A>,
    /// What the barriers after the alike ones said.
    apart: VecDeque<Bare, A>,
    /// The indices and the records of all its barriers.
    seen: History<u32>,
    said: History<Event>,
}

impl<A: Allocator> Model for Lane<A> {
    ghost use Rattle.gr_lanes.specs.Kept.{Kept};

    ghost Value = { Kept };

    ghost view = { λ l. record { index = record { count = l.count; releases = l.releases.items; barriers = l.seen; released = l.released.items; arrived = l.said }; barriers = l.barriers.items; alike = l.alike; apart = l.apart.items } };
}

/// The record of one of these barriers, for this item.
fn of_item<A: Allocator>(said: &VecDeque<Bare, A>, item: u16, place: u32) -> Option<Event>
    ensures { result ≡ slice_get (map (kept.of_item item) said.now.items) place }
{
    Some(said.get(place as usize)?.of_item(item))
}

impl<A: Allocator + Copy> Lane<A> {
    /// The lane of an item without events.
    pub(crate) fn new(alloc: A) -> Lane<A>
        ensures { result ≡ nothing_kept }
    {
        Lane {
            count: 0,
            alike: 0,
            releases: Vec::new(alloc),
            released: Vec::new(alloc),
            barriers: VecDeque::new(alloc),
            apart: VecDeque::new(alloc),
            seen: History::new(),
            said: History::new(),
        }
    }
}

impl<A: Allocator> Lane<A> {
    /// The index of the item's release with this number.
    pub(crate) fn release(&self, number: u32) -> Option<u32>
        ensures { result ≡ slice_get self.now.index.releases number }
    {
        self.releases.get(number as usize).copied()
    }

    /// Which of the item's releases has this index.
    pub(crate) fn release_number(&self, index: u32) -> Option<u32>
        requires few { length self.now.index.releases < 4_294_967_296 }
        requires rise { AreRising self.now.index.releases }
        ensures { MatchOption result ((k : ℕ) → slice_get self.now.index.releases k ≢ Some index) (λ k. slice_get self.now.index.releases k ≡ Some index) }
    {
        let number = self.releases.binary_search(&index).ok()?;
        Some(number as u32)
    }

    /// The record of the item's release with this number.
    pub(crate) fn release_event(&self, number: u32) -> Option<Event>
        ensures { result ≡ slice_get self.now.index.released number }
    {
        self.released.get(number as usize).copied()
    }

    /// The index of one of the item's barriers that are not forgotten.
    pub(crate) fn barrier(&self, place: u32) -> Option<u32>
        ensures { result ≡ slice_get self.now.barriers place }
    {
        self.barriers.get(place as usize).copied()
    }

    /// Which of the item's barriers that are not forgotten has this index.
    pub(crate) fn barrier_place(&self, index: u32) -> Option<u32>
        requires few { length self.now.barriers < 4_294_967_296 }
        requires rise { AreRising self.now.barriers }
        ensures { MatchOption result ((k : ℕ) → slice_get self.now.barriers k ≢ Some index) (λ k. slice_get self.now.barriers k ≡ Some index) }
    {
        let place = self.barriers.binary_search(&index).ok()?;
        Some(place as u32)
    }

    /// How many barriers the item has that are not forgotten.
    #[inline(always)]
    pub(crate) fn barrier_count(&self) -> u32
        requires few { length self.now.barriers < 4_294_967_296 }
        ensures { result ≡ length self.now.barriers }
    {
        self.barriers.len() as u32
    }

    /// Whether the item has no release, and no barrier that is not forgotten.
    pub(crate) fn is_spent(&self) -> bool
        ensures { IsTrue result → HasNothing self.now }
    {
        self.releases.is_empty() && self.barriers.is_empty()
    }

    /// The record of this item's barrier with this number. So many are forgotten, and `firsts` are the first barriers of the
    /// instances after them.
    #[inline(always)]
    #[tactic(auto, using(crate::proofs::LaneLemmas::said_alike, crate::proofs::LaneLemmas::said_apart))]
    pub(crate) fn barrier_event(
        &self,
        firsts: &VecDeque<Bare, A>,
        forgotten: u32,
        item: u16,
        number: u32,
    ) -> Option<Event>
        requires lane { IsLane forgotten firsts.now.items item self.now }
        requires remembered { forgotten ≤ number }
        ensures { result ≡ slice_get self.now.index.arrived number }
    {
        if number < self.alike {
            return of_item(firsts, item, number - forgotten);
        }
        of_item(&self.apart, item, number - self.alike)
    }

    /// Whether the barrier with this number said the same as the first of its instance, or is not there yet and may still come.
    #[inline(always)]
    pub(crate) fn is_as_first(&self, number: u32, ended: bool) -> bool
        ensures { result ≡ kept.is_as_first number ended self.now }
    {
        number < self.alike || (!ended && self.apart.len() <= (number - self.alike) as usize)
    }

    /// Adds the item's next record; an end is no event. So many instances are forgotten, and `firsts` are the first barriers of those
    /// after them.
    ///
    /// # Errors
    /// `Memory`: out of memory. All is then as it was.
    #[inline(always)]
    pub(crate) fn take(
        &mut self,
        firsts: &mut VecDeque<Bare, A>,
        forgotten: u32,
        event: &Event,
    ) -> Result<(), Memory>
        requires few { self.old.index.count < 4_294_967_295 }
        requires lane { IsLane forgotten firsts.old.items event.now.item self.old }
        requires bare { model.is_barrier event.now ≡ true → event.now.names ≡ [] }
        ensures ok { OnOk result (Arrives forgotten firsts.old.items firsts.new.items event.now.item (taking self.old.index event.now) self.new) }
        ensures err { OnErr result ((self.new ≡ self.old) × (firsts.new.items ≡ firsts.old.items)) }
    {
        if event.kind.is_end() {
            return Ok(());
        }
        if is_barrier(event) {
            return self.arrive(firsts, forgotten, event);
        }
        self.add(event, is_release(event))
    }

    /// Adds the item's next event, which is neither a release nor a barrier. It takes no memory.
    pub(crate) fn add_access(&mut self, event: &Event)
        requires few { self.old.index.count < 4_294_967_295 }
        ensures { self.new ≡ kept_with self.old event.now false }
    {
        self.count += 1;
    }

    /// Adds the item's next event, which is no barrier.
    ///
    /// # Errors
    /// `Memory`: out of memory. The lane is then as it was.
    fn add(&mut self, event: &Event, release: bool) -> Result<(), Memory>
        requires few { self.old.index.count < 4_294_967_295 }
        ensures ok { OnOk result (self.new ≡ kept_with self.old event.now release) }
        ensures err { OnErr result (self.new ≡ self.old) }
    {
        if release {
            self.releases.reserve(1)?;
            self.released.reserve(1)?;
            self.releases.push_reserved(self.count);
            self.released.push_reserved(*event);
        }
        self.count += 1;
        Ok(())
    }

    /// Adds the item's next barrier, and keeps what it says where it does not say the same as the first of its instance.
    #[inline(always)]
    fn add_barrier(&mut self, event: &Event, is_alike: bool) -> Result<(), Memory>
        requires few { self.old.index.count < 4_294_967_295 }
        requires alike { self.old.alike ≤ self.old.index.count }
        ensures ok { OnOk result (self.new ≡ barrier_more self.old event.now is_alike) }
        ensures err { OnErr result (self.new ≡ self.old) }
    {
        self.barriers.reserve(1)?;
        if is_alike {
            self.alike += 1;
        } else {
            self.apart.push_back(Bare::of(event))?;
        }
        self.barriers.push_back_reserved(self.count);
        self.seen.push(&self.count);
        self.said.push(event);
        self.count += 1;
        Ok(())
    }

    /// Adds the item's next barrier. So many instances are forgotten, and `firsts` are the first barriers of those after them.
    ///
    /// # Errors
    /// `Memory`: out of memory. All is then as it was.
    #[tactic(auto, using(crate::proofs::LaneLemmas::alike_few))]
    fn arrive(
        &mut self,
        firsts: &mut VecDeque<Bare, A>,
        forgotten: u32,
        event: &Event,
    ) -> Result<(), Memory>
        requires few { self.old.index.count < 4_294_967_295 }
        requires lane { IsLane forgotten firsts.old.items event.now.item self.old }
        requires bare { event.now.names ≡ [] }
        ensures ok { OnOk result (Arrives forgotten firsts.old.items firsts.new.items event.now.item (with_event self.old.index event.now false true) self.new) }
        ensures err { OnErr result ((self.new ≡ self.old) × (firsts.new.items ≡ firsts.old.items)) }
    {
        if !self.apart.is_empty() {
            return self.add_barrier(event, false);
        }
        match firsts.get((self.alike - forgotten) as usize).copied() {
            None => {
                firsts.reserve(1)?;
                self.add_barrier(event, true)?;
                firsts.push_back_reserved(Bare::of(event));
                Ok(())
            }
            Some(first) => self.add_barrier(event, first.is(&Bare::of(event))),
        }
    }

    /// Forgets the first of the item's barriers that is not forgotten yet, where this many are.
    pub(crate) fn forget(&mut self, forgotten: u32)
        requires few { forgotten < 4_294_967_295 }
        ensures { self.new ≡ forgetting_one forgotten self.old }
    {
        let _ = self.barriers.pop_front();
        if self.alike == forgotten {
            let _ = self.apart.pop_front();
            self.alike += 1;
        }
    }
}
