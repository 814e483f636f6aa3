//! A stream on its way: its bytes are decoded as they come, and its events are sent.

ghost use Rattle.std.specs.Prelude.{◌≡◌, ◌≢◌, ◌++◌, ◌∷◌, [], ℕ, List, Some, None, IfOk, IfErr, IfSome, IsFalse, IsTrue, take};
ghost use Rattle.gr_model.specs.declared.event.Event.{Event as AnyEvent};
ghost use Rattle.gr_model.specs.Prelude.{is_complete};
ghost use Rattle.gr_model.specs.declared.limits.TheConstants.{MOST_RECORDS};
ghost use Rattle.gr_record.specs.Prelude.{HasMemory, answer, last_answer, stream_fault};
ghost use Rattle.gr_streams.specs.Sending.{AreSent, IsFed, IsSameSender, MayFollow, events_in, sent_as};

use gr_model::event::{Event, Kind};
use gr_record::decoder::Decoder;
use gr_record::error::RecordError;
use gr_record::fault::Fault;
use gr_record::part::Part;
use gr_threads::batching::BatchSender;
use gr_threads::receipt::Receipt;
use gr_threads::sender::Sender;
use std::alloc::{Allocator, Global};
use std::sync::Wait;
use std::time::Clock;

/// A stream on its way: the decoder of its bytes, and the sender of its events.
#[derive(Drop)]
pub(crate) struct Forward<A: Allocator = Global> {
    alloc: A,
    pub(crate) decoder: Decoder,
    pub(crate) sender: BatchSender<A>,
    // The parts of the piece at hand.
    pub(crate) parts: Vec<Part, A>,
    // Whether the sender refused an event. The stream is then too long, and the sender is closed.
    pub(crate) refused: bool,
}

/// What a stream leaves after its reading has ended.
#[derive(Drop)]
pub(crate) struct Ended<A: Allocator = Global> {
    /// The receipt of what was sent.
    pub(crate) receipt: Receipt<A>,
    /// Why the reading ended before the end of the stream, if it did.
    pub(crate) fault: Option<Fault>,
}

/// Waits until there is room, and sends an event; an end closes the sender. Returns whether it was sent.
fn send<R: Wait + Clock, A: Allocator + Copy>(
    rt: &R,
    alloc: A,
    sender: &mut BatchSender<A>,
    event: Event,
) -> bool
    ensures sent { IsTrue result → sender.new ≡ record sender.old { sent = sender.old.sent ++ sent_as event ∷ [] } }
    ensures refused { IsFalse result → (sender.new ≡ sender.old) × (sender.old.records ≡ MOST_RECORDS → ¬ MayFollow sender.old.items sender.old.sent event) }
{
    match event.kind {
        Kind::End { cut } => sender.close_wait(rt, cut).is_ok(),
        _ => sender.send_wait(rt, alloc, event).is_ok(),
    }
}

/// Sends an event, unless an earlier one was refused. Returns whether this one or an earlier one was refused; the sender is
/// then closed.
fn forward_one<R: Wait + Clock, A: Allocator + Copy>(
    rt: &R,
    alloc: A,
    sender: &mut BatchSender<A>,
    refused: bool,
    event: Event,
) -> bool
    ensures same { IsSameSender sender.old sender.new }
    ensures sent { (events : List AnyEvent) → sender.old.records ≡ MOST_RECORDS → AreSent sender.old.items events sender.old.sent refused → AreSent sender.new.items (events ++ event ∷ []) sender.new.sent result }
{
    if refused {
        return true;
    }
    if send(rt, alloc, sender, event) {
        return false;
    }
    close_cut(rt, sender);
    true
}

/// Sends a part if it is an event. Returns whether this one or an earlier one was refused.
fn forward_part<R: Wait + Clock, A: Allocator + Copy>(
    rt: &R,
    alloc: A,
    sender: &mut BatchSender<A>,
    refused: bool,
    part: Part,
) -> bool
    ensures same { IsSameSender sender.old sender.new }
    ensures sent { (events : List AnyEvent) → sender.old.records ≡ MOST_RECORDS → AreSent sender.old.items events sender.old.sent refused → AreSent sender.new.items (events ++ events_in (part ∷ [])) sender.new.sent result }
{
    match part {
        Part::Header(_) => refused,
        Part::Event(event) => forward_one(rt, alloc, sender, refused, event),
    }
}

/// Sends the events among the parts, in order, up to one that is refused. Returns whether one was refused.
fn forward_all<R: Wait + Clock, A: Allocator + Copy>(
    rt: &R,
    alloc: A,
    sender: &mut BatchSender<A>,
    refused: bool,
    parts: &[Part],
) -> bool
    ensures same { IsSameSender sender.old sender.new }
    ensures sent { (events : List AnyEvent) → sender.old.records ≡ MOST_RECORDS → AreSent sender.old.items events sender.old.sent refused → AreSent sender.new.items (events ++ events_in parts.now) sender.new.sent result }
{
    let mut stuck = refused;
    for part in parts {
        stuck = forward_part(rt, alloc, sender, stuck, *part);
    }
    stuck
}

/// Closes a sender with the cut mark, if it is open.
fn close_cut<R: Wait + Clock, A: Allocator>(rt: &R, sender: &mut BatchSender<A>)
    ensures same { IsSameSender sender.old sender.new }
    ensures closed { IsTrue (is_complete sender.new.sent) }
    ensures whole { IsTrue (is_complete sender.old.sent) → sender.new ≡ sender.old }
{
    // A sender that is closed refuses this, and stays as it was.
    let _ = sender.close_wait(rt, true);
}

/// The receipt of a sender. If it is open, it is closed with the cut mark first.
fn cut<R: Wait + Clock, A: Allocator>(rt: &R, mut sender: BatchSender<A>) -> Receipt<A>
    ensures group { result.group ≡ sender.group }
    ensures queue { result.queue ≡ sender.queue.queue }
    ensures whole { IsTrue (is_complete sender.sent) → result.pushed ≡ sender.sent }
{
    close_cut(rt, &mut sender);
    match sender.into_receipt() {
        Ok(receipt) => receipt,
        Err(_) => unreachable!(),
    }
}

impl<A: Allocator + Copy> Forward<A> {
    /// A stream of which nothing was read, with a sender that has sent nothing.
    pub(crate) fn new(alloc: A, sender: Sender<A>) -> Forward<A>
        requires records { sender.records ≡ MOST_RECORDS }
        requires sent { sender.sent ≡ [] }
        ensures sender { result.sender ≡ sender }
        ensures fed { IsFed [] result.decoder result.sender result.refused }
    {
        Forward {
            alloc,
            decoder: Decoder::new(),
            sender: BatchSender::new(sender),
            parts: Vec::new(alloc),
            refused: false,
        }
    }

    /// Decodes the next piece of the stream, and sends all its events at once.
    ///
    /// # Errors
    /// The first fault of the stream, if this piece has it; `Memory` if there is no memory to decode the piece.
    pub(crate) fn take<R: Wait + Clock>(&mut self, rt: &R, piece: &[u8]) -> Result<(), RecordError>
        ensures same { IsSameSender self.old.sender self.new.sender }
        ensures fed { HasMemory result → (fed : List ℕ) → IsFed fed self.old.decoder self.old.sender self.old.refused → IsFed (fed ++ piece.now) self.new.decoder self.new.sender self.new.refused }
        ensures fault { HasMemory result → result ≡ answer self.new.decoder.stop }
    {
        self.parts.clear();
        let outcome = self.decoder.feed(piece, &mut self.parts);
        self.refused = forward_all(
            rt,
            self.alloc,
            &mut self.sender,
            self.refused,
            self.parts.as_slice(),
        );
        self.sender.flush(rt);
        outcome
    }

    /// Ends the reading at a fault. What was sent is cut, unless the end of the stream was sent.
    pub(crate) fn fail<R: Wait + Clock>(self, rt: &R, fault: Fault) -> Ended<A>
        ensures group { result.receipt.group ≡ self.sender.group }
        ensures queue { result.receipt.queue ≡ self.sender.queue.queue }
        ensures fault { result.fault ≡ Some fault }
    {
        Ended {
            receipt: cut(rt, self.sender),
            fault: Some(fault),
        }
    }

    /// Ends the reading at the end of the bytes. The stream has this place.
    pub(crate) fn finish<R: Wait + Clock>(self, rt: &R, place: u64) -> Ended<A>
        ensures group { result.receipt.group ≡ self.sender.group }
        ensures queue { result.receipt.queue ≡ self.sender.queue.queue }
        ensures fault { IfErr (last_answer self.decoder.stop) (λ e. result.fault ≡ Some (stream_fault place e)) }
        ensures write { IfSome result.fault (λ f. f ≢ Fault.Write) }
        ensures whole { IfOk (last_answer self.decoder.stop) (λ _. (result.fault ≡ None) × (IsTrue (is_complete self.sender.sent) → result.receipt.pushed ≡ self.sender.sent)) }
    {
        match self.decoder.finish() {
            Err(error) => self.fail(rt, Fault::of_stream(place, error)),
            Ok(()) => Ended {
                receipt: cut(rt, self.sender),
                fault: None,
            },
        }
    }
}
