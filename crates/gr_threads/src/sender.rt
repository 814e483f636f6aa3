//! The sending end of one work-group's stream.
//!
//! Invariant: the seat is the group's, in the sender's queue. The count is the length of what it pushed. The sender is
//! closed exactly if that ends in an end. One of the records that the stream may have is kept for the end.
//!
//! Contracts don't see what the queue holds: docs/QUEUES.md, "Full and empty", says what `Full` means.

ghost use Rattle.std.specs.Prelude.{◌≡◌, ◌+◌, ◌<◌, ◌≤◌, [], ◌∷◌, ◌++◌, length, IfOk, IfErr, IfSome, OnOk, OnErr, MatchOption, IsTrue, IsFalse};
ghost use Rattle.std.specs.Arc.{arc_value};
ghost use Rattle.gr_model.specs.Prelude.{IsEventOk, end_of, is_end, is_complete};
ghost use Rattle.gr_threads.specs.Refusals.{IsFull, IsSendRefusal, IsRefusalOfEnd, MaySend, IsFirstCause, WasFull, is_full};
ghost use Rattle.gr_threads.specs.Senders.{MayPush, with_waiting};

use crate::idle::Idle;
use crate::receipt::Receipt;
use gr_model::event::{Event, event_ok};
use gr_model::limits::MOST_RECORDS;
use gr_route::batch::Batch;
use gr_route::intake::{Intake, IntakeSeat};
use std::alloc::{Allocator, Global};
use std::marker::Model;
use std::sync::{Arc, Wait};
use std::time::Clock;
use thiserror::Error;

/// Why an event or an end was not sent: the first cause that applies.
#[derive(Clone, Copy, Debug, PartialEq, Eq, Error)]
pub enum SendError {
    /// The sender has sent the end.
    #[error("the sender is closed")]
    Closed,
    /// The work-group has no such work-item.
    #[error("the work-group has no such work-item")]
    UnknownItem,
    /// The event is an end, or the work-group may not have it.
    #[error("the work-group may not have this event")]
    BadEvent,
    /// The stream has room for its end alone.
    #[error("the stream has room for its end alone")]
    StreamFull,
    /// The queue was full at some moment of the call, and this is what was not pushed.
    #[error("the queue is full")]
    Full(Event),
}

/// Why an event is refused before any push: the first cause that applies.
pub(crate) fn refusal(
    closed: bool,
    items: u16,
    sent: u32,
    records: u32,
    event: &Event,
) -> Option<SendError>
    requires { IsFalse closed → sent < records }
    ensures cause { IsFirstCause closed items sent records event.now result }
    ensures never_full { IfSome result (λ error. IsFalse (is_full error)) }
{
    if closed {
        return Some(SendError::Closed);
    }
    if event.item >= items {
        return Some(SendError::UnknownItem);
    }
    if event.kind.is_end() || !event_ok(event, items) {
        return Some(SendError::BadEvent);
    }
    if sent + 1 >= records {
        return Some(SendError::StreamFull);
    }
    None
}

/// The sending end of one work-group's stream. Contracts see its queue, its group and items, the number of records that
/// the stream may have, and what it has sent.
#[derive(Drop)]
pub struct Sender<A: Allocator = Global> {
    queue: Arc<Intake<A>, A>,
    seat: IntakeSeat<A>,
    group: u16,
    items: u16,
    records: u32,
    sent: u32,
    closed: bool,
}

impl<A: Allocator> Model for Sender<A> {
    ghost use Rattle.std.specs.Arc.{arc_value};
    ghost use Rattle.gr_threads.specs.Senders.{IsSender, Sending};

    ghost Value = { Sending };

    ghost view = { λ s. record { queue = arc_value s.queue; group = s.group; items = s.items; records = s.records; sent = s.seat.pushed } };

    ghost invariant = { λ s. IsSender (arc_value s.queue) s.seat s.group s.items s.records s.sent s.closed };
}

impl<A: Allocator> Sender<A> {
    /// An open sender of a work-group with `items` work-items, over the group's seat. The stream may have `records`
    /// records, its end included.
    /// Requires: the seat is the group's, is of this queue, has `items` work-items, and has pushed nothing; `records`
    /// is 1 to `MOST_RECORDS`.
    pub fn new(
        group: u16,
        items: u16,
        records: u32,
        queue: Arc<Intake<A>, A>,
        seat: IntakeSeat<A>,
    ) -> Sender<A>
        requires seat { seat ≡ record { queue = (arc_value queue).queue; group = group; items = items; pushed = [] } }
        requires records { (0 < records) × (records ≤ MOST_RECORDS) }
        ensures { result ≡ record { queue = arc_value queue; group = group; items = items; records = records; sent = [] } }
    {
        // For the proof: the group has a work-item, which an end needs.
        let _ = seat.items();
        Sender {
            queue,
            seat,
            group,
            items,
            records,
            sent: 0,
            closed: false,
        }
    }

    /// The number of the work-group whose stream it sends.
    pub fn group(&self) -> u16
        ensures { result ≡ self.now.group }
    {
        self.group
    }

    /// How many records it has sent, the end included.
    pub fn sent(&self) -> u32
        ensures { result ≡ length self.now.sent }
    {
        self.sent
    }

    /// Whether it has sent the end.
    pub fn is_closed(&self) -> bool
        ensures { result ≡ is_complete self.now.sent }
    {
        self.closed
    }

    /// Pushes the record that comes next.
    /// Requires: the end was not sent; the group may have the record; if it is no end, there is room for the end after it.
    fn push<R: Wait>(&mut self, rt: &R, event: Event) -> Result<(), SendError>
        requires unended { IsFalse (is_complete self.old.sent) }
        requires good { IsEventOk event self.old.items }
        requires room { IsFalse (is_end event) → length self.old.sent + 1 < self.old.records }
        ensures ok { OnOk result (self.new ≡ record self.old { sent = self.old.sent ++ event ∷ [] }) }
        ensures unchanged { OnErr result (self.new ≡ self.old) }
        ensures full { IfErr result (λ error. IsFull self.old event error) }
    {
        let ends = event.kind.is_end();
        if let Err(back) = self.queue.push(rt, &mut self.seat, event) {
            return Err(SendError::Full(back.0));
        }
        self.sent += 1;
        self.closed = ends;
        Ok(())
    }

    /// How many work-items its group has: at least 1.
    pub(crate) fn items(&self) -> u16
        ensures items { result ≡ self.now.items }
        ensures some { 0 < result }
    {
        self.items
    }

    /// How many records the stream may have.
    pub(crate) fn records(&self) -> u32
        ensures records { result ≡ self.now.records }
        ensures limit { result ≤ MOST_RECORDS }
    {
        self.records
    }

    /// Pushes events in one step.
    /// Requires: they may come next.
    ///
    /// # Errors
    /// The events, only if the queue was full at some moment of the call. The sender is then unchanged.
    pub(crate) fn push_all<R: Wait>(
        &mut self,
        rt: &R,
        events: Batch<Event, A>,
    ) -> Result<(), Batch<Event, A>>
        requires { MayPush self.old events }
        ensures ok { OnOk result (self.new ≡ with_waiting self.old events) }
        ensures unchanged { IfErr result (λ back. (back ≡ events) × (self.new ≡ self.old)) }
        ensures full { OnErr result (WasFull self.old) }
    {
        let count = events.len() as u32;
        if let Err(back) = self.queue.push_all(rt, &mut self.seat, events) {
            return Err(back.0);
        }
        self.sent += count;
        Ok(())
    }

    /// The queue that it sends to.
    pub(crate) fn queue(&self) -> &Intake<A> {
        &self.queue
    }

    /// Sends an event.
    ///
    /// # Errors
    /// The first of these that applies: `Closed` if the end was sent; `UnknownItem` if the group has no such item;
    /// `BadEvent` if the event is an end, or the group may not have it; `StreamFull` if the stream has room for its end
    /// alone; `Full` with the event, only if the queue was full at some moment of the call. The sender is then unchanged.
    ///
    /// # Example
    /// ```rust
    /// let (queue, mut taker) = Intake::new(alloc, 4)?;
    /// let queue = Arc::new(alloc, queue)?;
    /// let seat = queue.split(&mut taker, 0, 1).ok_or("the first split")?;
    /// let mut sender = Sender::new(0, 1, 1000, Arc::try_clone(&queue)?, seat);
    /// let event = Event { item: 0, kind: Kind::Write, space: Space::Global, word: 16, names: Names::none() };
    /// assert_eq!(rt; sender.send(&rt, event), Ok(()));
    /// assert_eq!(rt; sender.close(&rt, false), Ok(()));
    /// assert_eq!(rt; sender.send(&rt, event), Err(SendError::Closed));
    /// ```
    pub fn send<R: Wait>(&mut self, rt: &R, event: Event) -> Result<(), SendError>
        ensures ok { OnOk result (self.new ≡ record self.old { sent = self.old.sent ++ event ∷ [] }) }
        ensures accepted { OnOk result (MaySend self.old event) }
        ensures unchanged { OnErr result (self.new ≡ self.old) }
        ensures refused { IfErr result (λ error. IsSendRefusal self.old event error) }
    {
        match refusal(self.closed, self.items, self.sent, self.records, &event) {
            Some(error) => Err(error),
            None => self.push(rt, event),
        }
    }

    /// Sends the end of the stream. It is `cut` if records before it were lost.
    ///
    /// # Errors
    /// `Closed` if the end was sent before; else `Full` with the end, only if the queue was full at some moment of the
    /// call. The sender is then unchanged.
    pub fn close<R: Wait>(&mut self, rt: &R, cut: bool) -> Result<(), SendError>
        ensures ok { OnOk result (self.new ≡ record self.old { sent = self.old.sent ++ end_of cut ∷ [] }) }
        ensures accepted { OnOk result (IsFalse (is_complete self.old.sent)) }
        ensures unchanged { OnErr result (self.new ≡ self.old) }
        ensures refused { IfErr result (λ error. IsRefusalOfEnd self.old cut error) }
    {
        if self.closed {
            return Err(SendError::Closed);
        }
        self.push(rt, Event::end(cut))
    }

    /// Sends an event. While the queue is full, it backs off and tries again.
    ///
    /// # Errors
    /// Those of `send` except `Full`. The sender is then unchanged.
    pub fn send_wait<R: Wait + Clock>(&mut self, rt: &R, event: Event) -> Result<(), SendError>
        ensures ok { OnOk result (self.new ≡ record self.old { sent = self.old.sent ++ event ∷ [] }) }
        ensures accepted { OnOk result (MaySend self.old event) }
        ensures unchanged { OnErr result (self.new ≡ self.old) }
        ensures refused { IfErr result (λ error. IsSendRefusal self.old event error) }
        ensures never_full { IfErr result (λ error. IsFalse (is_full error)) }
    {
        let idle = Idle::new();
        let again = &event;
        for _ in rt.forever() {
            match self.send(rt, *again) {
                Err(SendError::Full(_)) => idle.wait(rt),
                answer => return answer,
            }
        }
        unreachable!()
    }

    /// Sends the end of the stream. While the queue is full, it backs off and tries again.
    ///
    /// # Errors
    /// `Closed` if the end was sent before. The sender is then unchanged.
    pub fn close_wait<R: Wait + Clock>(&mut self, rt: &R, cut: bool) -> Result<(), SendError>
        ensures ok { OnOk result (self.new ≡ record self.old { sent = self.old.sent ++ end_of cut ∷ [] }) }
        ensures accepted { OnOk result (IsFalse (is_complete self.old.sent)) }
        ensures unchanged { OnErr result (self.new ≡ self.old) }
        ensures refused { IfErr result (λ error. IsRefusalOfEnd self.old cut error) }
        ensures never_full { IfErr result (λ error. IsFalse (is_full error)) }
    {
        let idle = Idle::new();
        for _ in rt.forever() {
            match self.close(rt, cut) {
                Err(SendError::Full(_)) => idle.wait(rt),
                answer => return answer,
            }
        }
        unreachable!()
    }

    /// The receipt of what was sent.
    ///
    /// # Errors
    /// The sender, unchanged, if it has not sent the end.
    pub fn into_receipt(self) -> Result<Receipt<A>, Sender<A>>
        ensures receipt { IfOk result (λ receipt. receipt ≡ record { queue = self.queue.queue; group = self.group; items = self.items; pushed = self.sent }) }
        ensures closed { OnOk result (IsTrue (is_complete self.sent)) }
        ensures back { IfErr result (λ sender. sender ≡ self) }
        ensures not_closed { OnErr result (IsFalse (is_complete self.sent)) }
    {
        if !self.closed {
            return Err(self);
        }
        Ok(Receipt::of(self.seat))
    }
}
