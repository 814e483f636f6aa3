//! The end of an intake queue that the sequencer pops from.

ghost use Rattle.std.specs.Prelude.{◌≡◌, ◌<◌, ◌≤◌, ◌++◌, ◌∷◌, [], IfNone, IfOk, IfSome, IsTrue, OnErr, OnOk, slice_index, slice_set};
ghost use Rattle.std.specs.Arc.{arc_value};
ghost use Rattle.gr_model.specs.Prelude.{is_complete};
ghost use Rattle.gr_route.specs.Batches.{sent_by};
ghost use Rattle.gr_route.specs.IntakeRule.{no_sizes};
ghost use Rattle.gr_route.specs.IntakeSeats.{IsDelivery, popped_of};
ghost use Rattle.gr_route.specs.Prefixes.{StartsWith};

use gr_model::event::Event;
use gr_model::limits::{MOST_GROUPS, MOST_ITEMS_OF_A_GROUP, MOST_PLACES, MOST_RECORDS};
use gr_model::memory::Memory;
use gr_route::batch::Batch;
use gr_route::intake::{Intake, IntakeSeat, TakerSeat};
use gr_threads::sender::Sender;
use std::alloc::{Allocator, Global};
use std::marker::Model;
use std::sync::{Arc, Wait};

/// The end of an intake queue that the sequencer pops from. Contracts see its seat.
#[derive(Drop)]
pub struct Inlet<A: Allocator = Global> {
    pub(crate) queue: Arc<Intake<A>, A>,
    seat: TakerSeat<A>,
}

impl<A: Allocator> Model for Inlet<A> {
    ghost use Rattle.std.specs.Prelude.{◌≡◌};
    ghost use Rattle.std.specs.Arc.{arc_value};
    ghost use Rattle.gr_route.specs.IntakeSeats.{Taker};

    ghost Value = { Taker };

    ghost view = { λ i. i.seat };

    ghost invariant = { λ i. i.seat.queue ≡ (arc_value i.queue).queue };
}

impl<A: Allocator + Copy> Inlet<A> {
    /// The end of a new queue with room for `capacity` batches of events.
    ///
    /// # Errors
    /// `Memory`: out of memory.
    pub fn new(alloc: A, capacity: u32) -> Result<Inlet<A>, Memory>
        requires { (0 < capacity) × (capacity ≤ MOST_PLACES) }
        ensures { IfOk result (λ i. i ≡ record { queue = i.queue; popped = []; sizes = no_sizes; joined = [] }) }
    {
        let (queue, seat) = Intake::new(alloc, capacity)?;
        let queue = Arc::new(alloc, queue)?;
        Ok(Inlet { queue, seat })
    }

    /// The sender of a work-group with so many items.
    /// Requires: the group has had no sender.
    ///
    /// # Errors
    /// `Memory`: out of memory. Nothing is then changed.
    pub fn sender(&mut self, group: u16, items: u16) -> Result<Sender<A>, Memory>
        requires group { group < MOST_GROUPS }
        requires items { (0 < items) × (items ≤ MOST_ITEMS_OF_A_GROUP) }
        requires first { slice_index self.old.sizes group ≡ 0 }
        ensures sender { IfOk result (λ s. s ≡ record { queue = s.queue; group = group; items = items; records = MOST_RECORDS; sent = [] }) }
        ensures queue { IfOk result (λ s. s.queue.queue ≡ self.old.queue) }
        ensures seat { OnOk result (self.new ≡ record self.old { sizes = slice_set self.old.sizes group items }) }
        ensures unchanged { OnErr result (self.new ≡ self.old) }
    {
        let queue = Arc::try_clone(&self.queue)?;
        match self.queue.split(&mut self.seat, group, items) {
            Some(seat) => Ok(Sender::new(group, items, MOST_RECORDS as u32, queue, seat)),
            None => unreachable!(),
        }
    }
}

impl<A: Allocator> Inlet<A> {
    /// Pops a batch of a work-group's events, if there is one.
    pub fn pop<R: Wait>(&mut self, rt: &R) -> Option<(u16, Batch<Event, A>)>
        ensures some { IfSome result (λ sent. self.new ≡ record self.old { popped = self.old.popped ++ sent_by sent.0 sent.1 }) }
        ensures unchanged { IfNone result (self.new ≡ self.old) }
        ensures delivery { IsDelivery self.new }
    {
        let batch = self.queue.pop_all(rt, &mut self.seat)?;
        Some(batch.into_events())
    }

    /// Takes a work-group's seat back. What was popped of the group is a prefix of what the seat pushed, and all of it if its
    /// end was popped.
    pub fn join_back(&mut self, seat: IntakeSeat<A>)
        requires { seat.queue ≡ self.old.queue }
        ensures same { (self.new.queue ≡ self.old.queue) × (self.new.popped ≡ self.old.popped) }
        ensures prefix { StartsWith seat.pushed (popped_of self.old seat.group) }
        ensures whole { IsTrue (is_complete (popped_of self.old seat.group)) → popped_of self.old seat.group ≡ seat.pushed }
    {
        self.queue.join_back(&mut self.seat, seat);
    }
}
