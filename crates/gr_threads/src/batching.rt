//! A sender that pushes several events in one step.
//!
//! Invariant: the events that wait may be pushed after what the sender has sent. No event waits once the end was sent.

ghost use Rattle.std.specs.Prelude.{◌≡◌, ◌+◌, [], ◌∷◌, ◌++◌, IfErr, IfOk, OnErr, OnOk, IsTrue, IsFalse};
ghost use Rattle.gr_model.specs.Prelude.{end_of, is_complete};
ghost use Rattle.gr_threads.specs.Refusals.{IsRefusalOfEnd, IsSendRefusal, MaySend, is_full};
ghost use Rattle.gr_threads.specs.Senders.{MayPush, with_waiting};

use crate::idle::Idle;
use crate::receipt::Receipt;
use crate::sender::{SendError, Sender, refusal};
use gr_model::event::Event;
use gr_route::batch::Outbox;
use std::alloc::{Allocator, Global};
use std::marker::Model;
use std::sync::Wait;
use std::thread;
use std::time::{Clock, Duration};

/// How many events of a sender may wait to be taken before it lets other threads catch up.
const GREAT_LEAD: u32 = 16384;

/// For how many microseconds it then sleeps before it looks again.
const NAP: u64 = 256;

/// How often it then sleeps at most.
const MOST_NAPS: u32 = 64;

/// A sender whose events wait until several are pushed in one step. Contracts see it as a sender that has sent all of them.
#[derive(Drop)]
pub struct BatchSender<A: Allocator = Global> {
    sender: Sender<A>,
    waiting: Outbox<Event, A>,
    // How many records it has sent, counting those that wait.
    sent: u32,
}

impl<A: Allocator> Model for BatchSender<A> {
    ghost use Rattle.gr_threads.specs.Senders.{IsBatchSender, Sending, with_waiting};

    ghost Value = { Sending };

    ghost view = { λ s. with_waiting s.sender s.waiting };

    ghost invariant = { λ s. IsBatchSender s.sender s.waiting s.sent };
}

/// Pushes the events that wait. While the queue is full, it backs off and tries again.
fn push_waiting<R: Wait + Clock, A: Allocator>(
    rt: &R,
    sender: &mut Sender<A>,
    waiting: &mut Outbox<Event, A>,
)
    requires { MayPush sender.old waiting.old }
    ensures sent { sender.new ≡ with_waiting sender.old waiting.old }
    ensures none { waiting.new ≡ [] }
{
    let Some(mut batch) = waiting.take() else {
        return;
    };
    let idle = Idle::new();
    for _ in rt.forever() {
        match sender.push_all(rt, batch) {
            Ok(()) => return,
            Err(back) => {
                batch = back;
                idle.wait(rt);
            }
        }
    }
    unreachable!()
}

/// Lets the next events wait in a list that was used before, if there is one.
fn find_list<R: Wait, A: Allocator>(rt: &R, sender: &Sender<A>, waiting: &mut Outbox<Event, A>)
    ensures { waiting.new ≡ waiting.old }
{
    if let Some(list) = sender.queue().spares.take(rt) {
        waiting.lend(list);
    }
}

impl<A: Allocator> BatchSender<A> {
    /// Over a sender that has sent nothing.
    pub fn new(sender: Sender<A>) -> BatchSender<A>
        requires { sender.sent ≡ [] }
        ensures { result ≡ sender }
    {
        BatchSender {
            sender,
            waiting: Outbox::new(),
            sent: 0,
        }
    }

    /// Pushes the events that wait. While the queue is full, it backs off and tries again.
    pub fn flush<R: Wait + Clock>(&mut self, rt: &R)
        ensures { self.new ≡ self.old }
    {
        if !self.sender.is_closed() {
            push_waiting(rt, &mut self.sender, &mut self.waiting);
        }
    }

    /// Sleeps a while if many of its events wait to be taken.
    pub fn let_others_catch_up<R: Clock>(&self, rt: &R) {
        let group = self.sender.group();
        let leads = &self.sender.queue().leads;
        for _ in 0..MOST_NAPS {
            if leads.of(group) < GREAT_LEAD {
                return;
            }
            thread::sleep(rt, Duration::from_micros(NAP));
        }
    }

    /// Sends the end of the stream, after the events that wait. While the queue is full, it backs off and tries again.
    ///
    /// # Errors
    /// `Closed` if the end was sent before. The sender is then unchanged.
    pub fn close_wait<R: Wait + Clock>(&mut self, rt: &R, cut: bool) -> Result<(), SendError>
        ensures ok { OnOk result (self.new ≡ record self.old { sent = self.old.sent ++ end_of cut ∷ [] }) }
        ensures accepted { OnOk result (IsFalse (is_complete self.old.sent)) }
        ensures unchanged { OnErr result (self.new ≡ self.old) }
        ensures refused { IfErr result (λ error. IsRefusalOfEnd self.old cut error) }
        ensures never_full { IfErr result (λ error. IsFalse (is_full error)) }
    {
        if self.sender.is_closed() {
            return Err(SendError::Closed);
        }
        push_waiting(rt, &mut self.sender, &mut self.waiting);
        self.sent += 1;
        self.sender.close_wait(rt, cut)
    }

    /// The receipt of what was sent.
    ///
    /// # Errors
    /// The sender, unchanged, if it has not sent the end.
    pub fn into_receipt(self) -> Result<Receipt<A>, BatchSender<A>>
        ensures receipt { IfOk result (λ receipt. receipt ≡ record { queue = self.queue.queue; group = self.group; items = self.items; pushed = self.sent }) }
        ensures closed { OnOk result (IsTrue (is_complete self.sent)) }
        ensures back { IfErr result (λ sender. sender ≡ self) }
        ensures not_closed { OnErr result (IsFalse (is_complete self.sent)) }
    {
        let BatchSender {
            sender,
            waiting,
            sent,
        } = self;
        match sender.into_receipt() {
            Ok(receipt) => Ok(receipt),
            Err(sender) => Err(BatchSender {
                sender,
                waiting,
                sent,
            }),
        }
    }
}

impl<A: Allocator + Copy> BatchSender<A> {
    /// Sends an event. It waits until there are more of them, or `flush` is called.
    ///
    /// # Errors
    /// Those of `Sender::send` except `Full`. The sender is then unchanged.
    pub fn send_wait<R: Wait + Clock>(
        &mut self,
        rt: &R,
        alloc: A,
        event: Event,
    ) -> Result<(), SendError>
        ensures ok { OnOk result (self.new ≡ record self.old { sent = self.old.sent ++ event ∷ [] }) }
        ensures accepted { OnOk result (MaySend self.old event) }
        ensures unchanged { OnErr result (self.new ≡ self.old) }
        ensures refused { IfErr result (λ error. IsSendRefusal self.old event error) }
        ensures never_full { IfErr result (λ error. IsFalse (is_full error)) }
    {
        let closed = self.sender.is_closed();
        let items = self.sender.items();
        if let Some(error) = refusal(closed, items, self.sent, self.sender.records(), &event) {
            return Err(error);
        }
        match self.waiting.add(alloc, event) {
            Ok(()) => {
                self.sent += 1;
                Ok(())
            }
            Err(_) => {
                push_waiting(rt, &mut self.sender, &mut self.waiting);
                self.sender.send_wait(rt, event)?;
                find_list(rt, &self.sender, &mut self.waiting);
                self.sent += 1;
                Ok(())
            }
        }
    }
}
