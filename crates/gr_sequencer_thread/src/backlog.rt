//! The events of a work-group that were popped, and are still to be taken.

ghost use Rattle.std.specs.Prelude.{◌≡◌, ◌<◌, ◌∷◌, ◌++◌, [], All, false, IfNone, IfOk, IfSome, IsTrue, MatchOption, OnErr, OnOk, length, slice_index_or, slice_set};
ghost use Rattle.gr_taking.specs.Sources.{ListedRecords};
ghost use Rattle.gr_sequencer_thread.specs.Feeds.{AreNoBacklogs, left_of};

use crate::inlet::Inlet;
use gr_model::event::Event;
use gr_model::memory::Memory;
use gr_model::shape::Shape;
use gr_route::batch::Batch;
use gr_taking::source::Source;
use std::alloc::{Allocator, Global};
use std::collections::VecDeque;
use std::marker::Model;
use std::mem;
use std::sync::Wait;

/// The events of a work-group that were popped, and are still to be taken. Contracts see the group and these events.
#[derive(Drop)]
pub(crate) struct Backlog<A: Allocator = Global> {
    group: u16,
    items: u16,
    /// The batch that is being taken, and how many of its events were taken.
    batch: Option<Batch<Event, A>>,
    taken: usize,
    /// The batches after it, and how many events they have.
    later: VecDeque<Batch<Event, A>, A>,
    count: usize,
    /// Lists whose events were taken.
    emptied: VecDeque<Vec<Event, A>, A>,
}

impl<A: Allocator> Model for Backlog<A> {
    ghost use Rattle.std.specs.Prelude.{◌++◌};
    ghost use Rattle.gr_route.specs.Batches.{all_of};
    ghost use Rattle.gr_sequencer_thread.specs.Feeds.{left_of};
    ghost use Rattle.gr_taking.specs.Sources.{ListedRecords};

    ghost Value = { ListedRecords };

    ghost view = { λ b. record { group = b.group; records = left_of b.batch b.taken ++ all_of b.later.items } };
}

/// How many events a batch has, or 0 if there is no batch.
fn count_of<A: Allocator>(batch: &Option<Batch<Event, A>>) -> usize
    ensures { MatchOption batch.now (result ≡ 0) (λ events. (result ≡ length events) × (0 < result)) }
{
    match batch {
        None => 0,
        Some(events) => events.len(),
    }
}

/// The next event of the batch that is being taken, if one is left.
#[inline(always)]
fn next_of<A: Allocator>(batch: &Option<Batch<Event, A>>, taken: &mut usize) -> Option<Event>
    ensures some { IfSome result (λ event. left_of batch.now taken.old ≡ event ∷ left_of batch.now taken.new) }
    ensures none { IfNone result ((left_of batch.now taken.old ≡ []) × (taken.new ≡ taken.old)) }
{
    let events = batch.as_ref()?;
    // For the proof: a batch has no more events than a `usize` counts.
    let _ = events.len();
    let event = *events.get(*taken)?;
    *taken += 1;
    Some(event)
}

impl<A: Allocator> Backlog<A> {
    /// Adds events that were popped.
    ///
    /// # Errors
    /// `Memory`: out of memory. The backlog is then as it was.
    pub(crate) fn push(&mut self, events: Batch<Event, A>) -> Result<(), Memory>
        ensures ok { OnOk result (self.new ≡ record { group = self.old.group; records = self.old.records ++ events }) }
        ensures unchanged { OnErr result (self.new ≡ self.old) }
    {
        let count = events.len();
        self.later.push_back(events)?;
        self.count = self.count.saturating_add(count);
        Ok(())
    }

    /// Whether no event is still to be taken.
    pub(crate) fn is_empty(&self) -> bool
        ensures { IsTrue result → self.now.records ≡ [] }
    {
        self.taken >= count_of(&self.batch) && self.later.is_empty()
    }

    /// How many events are still to be taken.
    pub(crate) fn len(&self) -> usize {
        self.count
            .saturating_add(count_of(&self.batch).saturating_sub(self.taken))
    }

    /// Gives back the lists whose events were taken, to be filled again.
    pub(crate) fn give_back<R: Wait>(&mut self, rt: &R, inlet: &Inlet<A>)
        ensures { self.new ≡ self.old }
    {
        for _ in 0..self.emptied.len() {
            if let Some(list) = self.emptied.pop_front() {
                inlet.queue.spares.put(rt, list);
            }
        }
    }
}

impl<A: Allocator> Source for Backlog<A> {
    type Header = u16;

    ghost header = { λ s. s.group };

    ghost group_of = { λ g. g };

    ghost coming = { λ s. s.records };

    fn group(&self) -> u16
        ensures { result ≡ self.now.group }
    {
        self.group
    }

    fn items(&self) -> u16 {
        self.items
    }

    fn next(&mut self) -> Option<Event>
        ensures header { self.new.group ≡ self.old.group }
        ensures next { MatchOption result ((self.old.records ≡ []) × (self.new.records ≡ [])) (λ e. self.old.records ≡ e ∷ self.new.records) }
    {
        if let Some(event) = next_of(&self.batch, &mut self.taken) {
            return Some(event);
        }
        let next = self.later.pop_front();
        self.count = self.count.saturating_sub(count_of(&next));
        if let Some(list) = mem::replace(&mut self.batch, next).and_then(Batch::into_list) {
            let _ = self.emptied.push_back(list);
        }
        self.taken = 0;
        next_of(&self.batch, &mut self.taken)
    }
}

/// Whether no event of any group is still to be taken.
pub(crate) fn are_empty<A: Allocator>(backlogs: &[Backlog<A>]) -> bool
    ensures { IsTrue result → All (λ b. b.records ≡ []) backlogs.now }
{
    for group in 0..backlogs.len() {
        if !backlogs[group].is_empty() {
            return false;
        }
    }
    true
}

/// Adds popped events to their group's backlog, unless memory ran out before. Gives whether it ran out, before or now.
pub(crate) fn note<A: Allocator>(
    backlogs: &mut Vec<Backlog<A>, A>,
    failed: bool,
    group: u16,
    events: Batch<Event, A>,
) -> bool
    requires { group < length backlogs.old.items }
    ensures noted { result ≡ false → (failed ≡ false) × ((b : ListedRecords) → b ≡ slice_index_or backlogs.old.items group b → backlogs.new.items ≡ slice_set backlogs.old.items group (record { group = b.group; records = b.records ++ events })) }
    ensures count { length backlogs.new.items ≡ length backlogs.old.items }
{
    failed || backlogs[usize::from(group)].push(events).is_err()
}

/// A backlog without events for each group of a shape, in their order.
pub(crate) fn backlogs_of<A: Allocator + Copy>(
    alloc: A,
    shape: &Shape<A>,
) -> Result<Vec<Backlog<A>, A>, Memory>
    ensures { IfOk result (λ backlogs. AreNoBacklogs shape.now backlogs.items) }
{
    let mut backlogs = Vec::new(alloc);
    for group in 0..shape.groups() {
        backlogs.push(Backlog {
            group,
            items: shape.items(group),
            batch: None,
            taken: 0,
            later: VecDeque::new(alloc),
            count: 0,
            emptied: VecDeque::new(alloc),
        })?;
    }
    Ok(backlogs)
}
