//! What was taken of a launch's streams, and the order in which its events were handled.
//!
//! Invariant: the order is lawful, and the handled events of each item are its first ones. A tally, the frontier, counts them. The
//! other events of each item are kept until they are handled. All barriers of forgotten instances were handled, and the divergent
//! ones among these instances are kept. The order itself exists only in proofs: no memory holds it, and no step needs any.

ghost use Rattle.std.specs.Prelude.{[], ◌≡◌, ◌+◌, ◌<◌, IsOkUnless, IfOk, IfErr, IfSome, OnOk, MatchOption, OnErr, length, IsTrue, ◌↔◌};
ghost use Rattle.gr_order.specs.Types.{MOST_RECORDS, NotReady};
ghost use Rattle.gr_model.specs.Prelude.{IsHeld, AreComplete, event_at, list_of, Mark, CanAdd};
ghost use Rattle.gr_lanes.specs.Takes.{CanTake, IsEventButItem, IsTakeFault, next_of, nothing_taken, with_record};
ghost use Rattle.gr_steps.specs.Steps.{CanHandle, CanMeet, IsAtRest, IsMeeting, IsReady};
ghost use Rattle.gr_order.specs.Answers.{CanMake, IsHandleFault, IsMeetFault};
ghost use Rattle.gr_order.specs.AtOnce.{GoesAtOnce};
ghost use Rattle.gr_clocks.specs.Counts.{Counts, count_of, sizes_of};
ghost use Rattle.gr_windows.specs.Windows.{AreWaiting};
ghost use Rattle.gr_lanes.specs.Remembered.{IsWhole};
ghost use Rattle.gr_order.specs.States.{AreBelowFrontier};
ghost use Rattle.gr_order.specs.Forgetting.{ForgetsHandled};
ghost use Rattle.gr_order.specs.Sequences.{HandlesEvent, IsDone, IsGroupAtRest, IsSequence, MeetsInstance, MeetsNext, event_count, nothing, with_group, taking};

use crate::forgetting::{forget_if_passed, forget_next};
use crate::go_error::GoError;
use crate::meeting::{add_next_events, count_next_events};
use crate::ready::{is_plain, is_ready, next_instance};
use crate::steps::Ready;
use crate::waiting::{forget, keep};
use gr_clocks::tally::Tally;
use gr_lanes::kinds::{is_barrier, is_mere_access};
use gr_lanes::lanes::Lanes;
use gr_lanes::seq_error::SeqError;
use gr_model::event::{Event, EventId, ItemId};
use gr_model::history::History;
use gr_model::memory::Memory;
use gr_model::shape::Shape;
use gr_windows::windows::Windows;
use std::alloc::{Allocator, Global};
use std::marker::Model;

/// What was taken of a launch's streams, and the order in which its events were handled. Contracts see the lists and the
/// order.
#[derive(Drop)]
#[derive_where(Debug)]
pub struct Schedule<A: Allocator = Global> {
    lanes: Lanes<A>,
    handled: History<EventId>,
    frontier: Tally<A>,
    windows: Windows<A>,
    held: u64,
    /// For each group the item that had not passed the first instance remembered at the last look.
    lagging: Vec<u16, A>,
}

impl<A: Allocator> Model for Schedule<A> {
    ghost use Rattle.gr_order.specs.Sequences.{Sequence};
    ghost use Rattle.gr_order.specs.Waiting.{IsOrder};

    ghost Value = { Sequence };

    ghost view = { λ o. record { taken = o.lanes.streams; handled = o.handled } };

    ghost invariant = { λ o. IsOrder o.lanes o.handled o.frontier o.windows o.held };
}

impl<A: Allocator + Copy> Schedule<A> {
    /// The order of a launch of this shape, before its first record.
    ///
    /// # Errors
    /// `Memory`: out of memory.
    pub fn new(alloc: A, shape: Shape<A>) -> Result<Schedule<A>, Memory>
        ensures { IfOk result (λ o. o ≡ nothing shape) }
    {
        let lanes = Lanes::new(alloc, shape)?;
        Schedule::of_lanes(alloc, lanes)
    }

    /// The order of a launch of which no group has come.
    ///
    /// # Errors
    /// `Memory`: out of memory.
    pub fn without_groups(alloc: A) -> Result<Schedule<A>, Memory>
        ensures { IfOk result (λ o. o ≡ nothing []) }
    {
        Schedule::of_lanes(alloc, Lanes::without_groups(alloc))
    }

    /// The order of these groups, before their first records.
    ///
    /// # Errors
    /// `Memory`: out of memory.
    fn of_lanes(alloc: A, lanes: Lanes<A>) -> Result<Schedule<A>, Memory>
        requires nothing { lanes.streams ≡ nothing_taken lanes.streams.sizes }
        requires whole { IsWhole lanes }
        ensures { IfOk result (λ o. o ≡ nothing lanes.streams.sizes) }
    {
        let Ok(frontier) = Tally::new(alloc, lanes.shape()) else {
            return Err(Memory);
        };
        let windows = Windows::new(alloc, lanes.shape())?;
        let handled = History::new();
        let groups = usize::from(lanes.shape().groups());
        let mut lagging = Vec::with_capacity(alloc, groups)?;
        lagging.resize(groups, 0)?;
        Ok(Schedule {
            lanes,
            handled,
            frontier,
            windows,
            held: 0,
            lagging,
        })
    }

    /// The order with one more group, which has this many items. Groups below it that were not there come too, without items.
    /// Requires: the group has not come, and a launch may have it together with the others.
    ///
    /// # Errors
    /// `Memory`: out of memory.
    pub fn with_group(self, alloc: A, group: u16, items: u16) -> Result<Schedule<A>, Memory>
        requires { CanAdd self.taken group items }
        ensures { IfOk result (λ o. o ≡ with_group self group items) }
    {
        let Schedule {
            lanes,
            handled,
            frontier,
            windows,
            held,
            mut lagging,
        } = self;
        if lagging.len() <= usize::from(group) {
            lagging.resize(usize::from(group) + 1, 0)?;
        }
        let Ok(frontier) = frontier.with_group(alloc, group, items) else {
            return Err(Memory);
        };
        let windows = windows.with_group(alloc, group, items)?;
        let lanes = lanes.with_group(alloc, group, items)?;
        Ok(Schedule {
            lanes,
            handled,
            frontier,
            windows,
            held,
            lagging,
        })
    }
}

impl<A: Allocator> Schedule<A> {
    /// What was taken of the launch's streams. All that is forgotten of it was handled.
    pub fn lanes(&self) -> &Lanes<A>
        ensures taken { result.now.streams ≡ self.now.taken }
        ensures forgets { ForgetsHandled result.now self.now.handled }
        ensures sequence { IsSequence self.now }
    {
        &self.lanes
    }

    /// What was handled is a lawful order of events that were taken. It does nothing: a proof uses its contract.
    #[inline(always)]
    pub fn sequence_holds(&self)
        ensures { IsSequence self.now }
    {
        // a proof knows the invariant where a field is used
        let _ = &self.held;
    }

    /// How many events of each item were handled; these are its first ones.
    pub fn frontier(&self) -> &Tally<A>
        ensures shape { sizes_of result.now ≡ self.now.taken.sizes }
        ensures first { AreBelowFrontier self.now.handled result.now }
    {
        &self.frontier
    }

    /// The events of each item that were taken and not handled.
    pub fn windows(&self) -> &Windows<A>
        ensures { (c : Counts) → AreBelowFrontier self.now.handled c → AreWaiting self.now.taken c result.now }
    {
        &self.windows
    }

    /// The record of an item's first event that was not handled, if it was taken.
    pub fn waiting(&self, item: ItemId) -> Option<Event>
        ensures { (c : Counts) → AreBelowFrontier self.now.handled c → result ≡ event_at self.now.taken (record { at = item; index = count_of c item }) }
    {
        self.windows.waiting(item, 0)
    }

    /// The record of an event that may be handled.
    pub fn event_at(&self, event: EventId) -> Option<Event>
        requires { IsReady self.now.taken self.now.handled event }
        ensures { result ≡ event_at self.now.taken event }
    {
        self.windows.waiting(event.at, 0)
    }

    /// How many records of a group were taken; 0 where there is no such group.
    pub fn taken(&self, group: u16) -> u32
        ensures { result ≡ length (list_of self.now.taken group) }
    {
        self.lanes.taken(group)
    }

    /// The next event of an item, which may be handled.
    pub fn ready_event(&self, item: ItemId) -> EventId
        requires { CanHandle self.now.taken self.now.handled item }
        ensures next { (result.at ≡ item) × IsReady self.now.taken self.now.handled result }
        ensures sequence { IsSequence self.now }
    {
        let index = self.frontier.get(item);
        EventId { at: item, index }
    }

    /// The event of an item that may be handled, if there is one.
    #[inline(always)]
    pub fn next(&self, item: ItemId) -> Option<EventId>
        ensures next { MatchOption result (¬ CanHandle self.now.taken self.now.handled item) (λ e. (e.at ≡ item) × IsReady self.now.taken self.now.handled e) }
        ensures sequence { IsSequence self.now }
    {
        let index = self.frontier.get(item);
        let event = EventId { at: item, index };
        let taken = self.windows.waiting(item, 0)?;
        is_ready(&self.lanes, &self.frontier, event, &taken).then_some(event)
    }

    /// Whether an item's next event was taken, is no barrier and names no releases: then it may be handled. `next` also finds the
    /// others that may be.
    #[inline(always)]
    pub fn is_free(&self, item: ItemId) -> bool
        ensures { IsTrue result → CanHandle self.now.taken self.now.handled item }
    {
        match self.windows.waiting(item, 0) {
            None => false,
            Some(event) => is_plain(&event),
        }
    }

    /// The instance of a group that may meet, if there is one.
    pub fn meeting(&self, group: u16) -> Option<u32>
        ensures meeting { MatchOption result (¬ CanMeet self.now.taken self.now.handled group) (λ k. (a : Mark) × IsMeeting self.now.taken self.now.handled group k a) }
        ensures sequence { IsSequence self.now }
    {
        if group >= self.lanes.shape().groups() {
            return None;
        }
        next_instance(&self.lanes, &self.frontier, &self.windows, group)
    }

    /// The instance of a group that may meet, where one may. The next event of the first item alone gives it.
    pub fn next_meeting(&self, group: u16) -> u32
        requires { CanMeet self.now.taken self.now.handled group }
        ensures meeting { (a : Mark) × IsMeeting self.now.taken self.now.handled group result a }
        ensures sequence { IsSequence self.now }
    {
        let first = ItemId { group, item: 0 };
        let index = self.frontier.get(first);
        let event = EventId { at: first, index };
        self.lanes.barrier_number(event).unwrap()
    }

    /// The event that a group's record becomes when it is taken, if it may be taken and its event can then be handled at once: it is
    /// a mere access and not the group's first record, and no event of its item waits.
    #[inline(always)]
    pub fn at_once(&self, group: u16, event: &Event) -> Option<EventId>
        ensures goes { MatchOption result (¬ GoesAtOnce self.now group event.now) (λ e. GoesAtOnce self.now group event.now × (e ≡ next_of self.now.taken group event.now)) }
        ensures ready { IfSome result (λ e. IsReady (with_record self.now.taken group event.now) self.now.handled e) }
    {
        if !is_mere_access(event) {
            return None;
        }
        match self.lanes.refusal(group, event) {
            None => {}
            Some(_) => return None,
        }
        if self.lanes.taken(group) == 0 {
            return None;
        }
        let item = event.item;
        let at = ItemId { group, item };
        match self.windows.waiting(at, 0) {
            None => Some(EventId {
                at,
                index: self.frontier.get(at),
            }),
            Some(_) => None,
        }
    }

    /// Takes the next record of a group and handles its event, which can be handled at once. It takes no memory.
    pub fn take_at_once(&mut self, group: u16, event: Event)
        requires good { IsEventButItem event }
        requires room { length (list_of self.old.taken group) < MOST_RECORDS }
        requires goes { GoesAtOnce self.old group event }
        ensures step { HandlesEvent (taking self.old group event) (next_of self.old.taken group event) self.new }
        ensures sequence { IsSequence self.new }
    {
        let item = event.item;
        let at = ItemId { group, item };
        let index = self.frontier.get(at);
        self.lanes.take_access(group, &event);
        self.handled.push(&EventId { at, index });
        self.frontier.raise(at);
    }

    /// Once a group has ended, frees what is no longer needed of it. Says whether it has ended: its end was taken, and no event of
    /// its items waits.
    #[inline(always)]
    pub fn close(&mut self, group: u16) -> bool
        ensures unchanged { self.new ≡ self.old }
        ensures sequence { IsSequence self.new }
    {
        let has_ended = self.lanes.is_complete(group) && self.windows.free(group);
        if has_ended {
            self.lanes.close(group);
        }
        has_ended
    }

    /// Takes the next record of a group. It is a record that some group may have, whatever its item.
    ///
    /// # Errors
    /// The first of `UnknownGroup`, `AfterEnd` with the group, `UnknownItem` and `Memory` that is there. Nothing is then
    /// taken.
    #[inline(always)]
    pub fn take(&mut self, group: u16, event: Event) -> Result<(), SeqError>
    where
        A: Copy,
        requires good { IsEventButItem event }
        requires room { length (list_of self.old.taken group) < MOST_RECORDS }
        ensures ok { OnOk result (CanTake self.old.taken group event × (self.new ≡ taking self.old group event)) }
        ensures err { IfErr result (λ e. IsTakeFault self.old.taken group event e) }
        ensures unchanged { OnErr result (self.new ≡ self.old) }
        ensures sequence { IsSequence self.new }
    {
        if let Some(refusal) = self.lanes.refusal(group, &event) {
            return Err(refusal);
        }
        let more = !event.kind.is_end();
        keep(&mut self.windows, group, &event)?;
        let Ok(()) = self.lanes.take_accepted(group, &event) else {
            forget(&mut self.windows, group, &event);
            return Err(SeqError::Memory);
        };
        self.held += u64::from(more);
        let _ = self.close(group);
        Ok(())
    }

    /// Handles an item's next event, if all that it waits for was handled and it is no barrier of a convergent or waiting instance.
    ///
    /// # Errors
    /// `NotReady`. Nothing is then handled.
    pub fn handle(&mut self, item: ItemId) -> Result<EventId, GoError>
        ensures step { IfOk result (λ e. (e.at ≡ item) × HandlesEvent self.old e self.new) }
        ensures err { IfErr result (λ f. IsHandleFault self.old item f) }
        ensures only { IsOkUnless result NotReady }
        ensures unchanged { OnErr result (self.new ≡ self.old) }
        ensures sequence { IsSequence self.new }
    {
        let event = self.next(item).ok_or(GoError::NotReady)?;
        self.handle_event(event);
        Ok(event)
    }

    /// Whether an item's next event was taken and is a barrier.
    #[inline(always)]
    fn is_at_barrier(&self, item: ItemId) -> bool {
        self.windows
            .waiting(item, 0)
            .is_some_and(|event| is_barrier(&event))
    }

    /// Handles an event that may be handled. No more is forgotten.
    #[inline(always)]
    fn handle_next(&mut self, event: EventId)
        requires { IsReady self.old.taken self.old.handled event }
        ensures step { HandlesEvent self.old event self.new }
        ensures sequence { IsSequence self.new }
    {
        self.handled.push(&event);
        self.frontier.raise(event.at);
        self.windows.pop_first(event.at);
        self.held -= 1;
    }

    /// Forgets the first instance of a group that is remembered, once all items have passed it.
    fn forget_behind(&mut self, group: u16)
        requires { group < length self.old.taken.sizes }
        ensures { self.new ≡ self.old }
    {
        forget_if_passed(&mut self.lanes, &self.frontier, &mut self.lagging, group);
    }

    /// Handles an event that may be handled.
    pub fn handle_event(&mut self, event: EventId)
        requires { IsReady self.old.taken self.old.handled event }
        ensures step { HandlesEvent self.old event self.new }
        ensures sequence { IsSequence self.new }
    {
        let is_passed = self.is_at_barrier(event.at);
        self.handle_next(event);
        if is_passed {
            self.forget_behind(event.at.group);
        }
        let _ = self.close(event.at.group);
    }

    /// Handles the barriers of a group's first convergent instance that was not handled, if the event before each of them was. Gives
    /// the number of the instance.
    ///
    /// # Errors
    /// `NotReady`. Nothing is then handled.
    pub fn meet(&mut self, group: u16) -> Result<u32, GoError>
        ensures step { IfOk result (λ k. MeetsInstance self.old group k self.new) }
        ensures err { IfErr result (λ e. IsMeetFault self.old group e) }
        ensures only { IsOkUnless result NotReady }
        ensures unchanged { OnErr result (self.new ≡ self.old) }
        ensures sequence { IsSequence self.new }
    {
        let Some(instance) = self.meeting(group) else {
            return Err(GoError::NotReady);
        };
        self.meet_instance(group);
        Ok(instance)
    }

    /// Handles the barriers of a group's instance that may meet.
    pub fn meet_instance(&mut self, group: u16)
        requires { CanMeet self.old.taken self.old.handled group }
        ensures step { MeetsNext self.old group self.new }
        ensures sequence { IsSequence self.new }
    {
        let size = self.lanes.shape().items(group);
        forget_next(&mut self.lanes, &self.frontier, group);
        add_next_events(&mut self.handled, &self.frontier, group, size);
        count_next_events(&mut self.frontier, group, size);
        self.windows.pop_group(group, size);
        self.held -= u64::from(size);
        let _ = self.close(group);
    }

    /// A step of a group that is ready, if there is one.
    fn ready_in(&self, group: u16) -> Option<Ready>
        requires { group < length self.now.taken.sizes }
        ensures { MatchOption result (IsGroupAtRest self.now group) (λ r. CanMake self.now r) }
    {
        for item in 0..self.lanes.shape().items(group) {
            let at = ItemId { group, item };
            if self.next(at).is_some() {
                return Some(Ready::Item(at));
            }
        }
        match self.meeting(group) {
            None => None,
            Some(_) => Some(Ready::Group(group)),
        }
    }

    /// Any one step that is ready, or none where none is: the handled events are then the grounded ones.
    pub fn ready(&self) -> Option<Ready>
        ensures ready { MatchOption result (IsDone self.now) (λ r. CanMake self.now r) }
        ensures sequence { IsSequence self.now }
    {
        for group in 0..self.lanes.shape().groups() {
            if let Some(step) = self.ready_in(group) {
                return Some(step);
            }
        }
        None
    }

    /// Whether no step is left. The handled events are then the grounded ones.
    #[tactic(auto, using(crate::proofs::RestLemmas::not_at_rest))]
    pub fn is_at_rest(&self) -> bool
        ensures rest { IsTrue result ↔ IsAtRest self.now.taken self.now.handled }
        ensures done { IsTrue result → IsDone self.now }
        ensures sequence { IsSequence self.now }
    {
        self.ready().is_none()
    }

    /// Whether every group's end was taken.
    fn is_complete(&self) -> bool
        ensures complete { IsTrue result ↔ AreComplete self.now.taken }
        ensures sequence { IsSequence self.now }
    {
        for group in 0..self.lanes.shape().groups() {
            if !self.lanes.is_complete(group) {
                return false;
            }
        }
        true
    }

    /// Whether every group's end was taken and no step is left.
    pub fn is_at_end(&self) -> bool
        ensures ended { IsTrue result ↔ (AreComplete self.now.taken × IsAtRest self.now.taken self.now.handled) }
        ensures done { IsTrue result → IsDone self.now }
        ensures sequence { IsSequence self.now }
    {
        self.is_complete() && self.is_at_rest()
    }

    /// How many events were taken and not handled. Where no step is left, these are the events that are not grounded.
    pub fn held(&self) -> u64
        ensures count { result + length self.now.handled ≡ event_count self.now.taken }
        ensures held { IsAtRest self.now.taken self.now.handled → IsHeld self.now.taken result }
    {
        self.held
    }
}
