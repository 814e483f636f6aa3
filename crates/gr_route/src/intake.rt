//! The queue from the senders to the sequencer. Each work-group has one seat, which pushes its events. One seat pops the
//! events of all groups. (An "event" here is any record, the end too.)
//!
//! Invariant: of each group, what was popped, followed by what is queued, is what its seat pushed (docs/QUEUES.md, "The
//! intake queue"). What a seat knows is in its pass, a value without bytes, and the queue's rule keeps it true. Contracts
//! don't see what the queue holds: docs/QUEUES.md, "Full and empty", says what `Full` and `None` mean. The elements of the
//! queue are batches. The seat that pops keeps the rest of the batch that it popped last.

ghost use Rattle.std.specs.Prelude.{◌≡◌, ◌≢◌, ◌<◌, ◌≤◌, All, [], ◌∷◌, ◌++◌, length, replicate, slice_index, slice_set, IfOk, IfErr, OnOk, IfSome, IfNone, IsTrue, IsFalse};
ghost use Rattle.crossbeam_queue.specs.Fifo.{Forks, Held};
ghost use Rattle.crossbeam_queue.specs.Passes.{view as known, IsSamePass, IsPassOf};
ghost use Rattle.gr_model.specs.Prelude.{IsEventOk, IsPrefix, is_complete};
ghost use Rattle.gr_route.specs.Batches.{all_of};
ghost use Rattle.gr_route.specs.IntakeRule.{SeatsAgree, no_sizes};
ghost use Rattle.gr_route.specs.IntakeSeats.{AgreesWithSeat, AgreesWithTaker, IsDelivered, IsDelivery, IsNextPopped, popped_of};
ghost use Rattle.gr_route.specs.Rule.{BatchesAgree, after_split, seat_of};

use crate::batch::{Batch, Rest};
use crate::group_batch::GroupBatch;
use crate::leads::Leads;
use crate::room::Full;
use crate::rule::{IntakeRule, IntakeView, JoinStep, NamesGroup, PopStep, PushStep, SplitStep};
use crate::spares::Spares;
use crossbeam_queue::{Pass, RuledArrayQueue};
use gr_model::event::{Event, Sent};
use gr_model::limits::{MOST_GROUPS, MOST_ITEMS_OF_A_GROUP, MOST_PLACES, MOST_RECORDS};
use gr_model::memory::Memory;
use std::alloc::{Allocator, Global};
use std::marker::{Brand, Model};
use std::sync::Wait;

/// A bounded queue of events. Contracts see which queue it is, and for how many batches of events it has room.
#[derive(Drop)]
pub struct Intake<A: Allocator = Global> {
    queue: RuledArrayQueue<GroupBatch<A>, IntakeView, IntakeRule, A>,
    /// Lists that held events.
    pub spares: Spares<Event, A>,
    /// How far the senders of the first groups are ahead.
    pub leads: Leads<A>,
}

impl<A: Allocator> Model for Intake<A> {
    ghost use Rattle.crossbeam_queue.specs.Passes.{ruled_capacity};
    ghost use Rattle.gr_route.specs.Rooms.{Room};

    ghost Value = { Room };

    ghost view = { λ q. record { queue = q.queue.table.shared.table_id; places = ruled_capacity q.queue } };
}

/// The seat that pushes a work-group's events. Contracts see its queue, its group and items, and what it pushed.
#[derive(Drop)]
pub struct IntakeSeat<A: Allocator = Global> {
    pass: Pass<GroupBatch<A>, IntakeView>,
    group: u16,
    items: u16,
}

impl<A: Allocator> Model for IntakeSeat<A> {
    ghost use Rattle.crossbeam_queue.specs.Passes.{view as known};
    ghost use Rattle.gr_route.specs.IntakeSeats.{Seat};
    ghost use Rattle.gr_route.specs.Rule.{IsSeatPass};

    ghost Value = { Seat };

    ghost view = { λ s. record { queue = s.pass.table_id; group = s.group; items = s.items; pushed = (known s.pass).pushed } };

    ghost invariant = { λ s. IsSeatPass s.pass s.group s.items };
}

impl<A: Allocator> IntakeSeat<A> {
    /// The number of the work-group whose events the seat pushes.
    pub fn group(&self) -> u16
        ensures { result ≡ self.now.group }
    {
        self.group
    }

    /// How many work-items the group has: at least 1.
    pub fn items(&self) -> u16
        ensures items { result ≡ self.now.items }
        ensures some { 0 < result }
    {
        self.items
    }
}

/// The seat that pops. Contracts see its queue, what it popped, which work-groups have had a seat, and what the seats
/// that were joined back had pushed.
#[derive(Drop)]
pub struct TakerSeat<A: Allocator = Global> {
    pass: Pass<GroupBatch<A>, IntakeView>,
    // The number of items of each group that has had a seat, and 0 for the others. There is a place for every group, so a split
    // takes no memory.
    sizes: Vec<u16, A>,
    // The group of the batch that was popped last, and what is left of that.
    group: u16,
    rest: Rest<Event, A>,
}

impl<A: Allocator> Model for TakerSeat<A> {
    ghost use Rattle.std.specs.Prelude.{◌≡◌, length};
    ghost use Rattle.gr_model.specs.declared.limits.TheConstants.{MOST_GROUPS};
    ghost use Rattle.gr_model.specs.Prelude.{IsPrefix, events_of};
    ghost use Rattle.gr_route.specs.Batches.{sent_by};
    ghost use Rattle.gr_route.specs.IntakeSeats.{Taker, taker_seen};
    ghost use Rattle.gr_route.specs.Rule.{IsTakerPass};

    ghost Value = { Taker };

    ghost view = { λ s. taker_seen s.pass s.sizes.items (sent_by s.group s.rest) };

    ghost invariant = { λ s. IsTakerPass events_of IsPrefix s.pass s.sizes.items (sent_by s.group s.rest) × (length s.sizes.items ≡ MOST_GROUPS) };
}

/// So many zeros.
fn zeros<A: Allocator>(alloc: A, count: usize) -> Result<Vec<u16, A>, Memory>
    ensures { IfOk result (λ v. v.items ≡ replicate count 0) }
{
    let zeros = vec![in alloc; 0; count]?;
    Ok(zeros)
}

/// The sizes when no group has had a seat.
#[tactic(auto, unfolding(crate::specs::IntakeRule::no_sizes))]
fn none_seated<A: Allocator>(alloc: A) -> Result<Vec<u16, A>, Memory>
    ensures { IfOk result (λ v. v.items ≡ no_sizes) }
{
    zeros(alloc, MOST_GROUPS)
}

/// Splits off the seat of a group.
/// Requires: `G` names the group and its number of items; the pass is of this queue; the rule allows the split.
fn seat_for<G: NamesGroup, A: Allocator>(
    queue: &RuledArrayQueue<GroupBatch<A>, IntakeView, IntakeRule, A>,
    pass: &mut Pass<GroupBatch<A>, IntakeView>,
    group: u16,
    items: u16,
) -> Pass<GroupBatch<A>, IntakeView>
    requires named { (G.group ≡ group) × (G.items ≡ items) }
    requires queue { IsPassOf queue.now pass.old }
    requires rule { Forks (BatchesAgree SeatsAgree) pass.old.id (known pass.old) (after_split group items (known pass.old)) (seat_of group items []) }
    ensures queue { IsSamePass pass.old pass.new × IsPassOf queue.now result }
    ensures taker { known pass.new ≡ after_split group items (known pass.old) }
    ensures seat { known result ≡ seat_of group items [] }
{
    queue.another::<SplitStep<G>>(pass)
}

impl<A: Allocator + Copy> Intake<A> {
    /// An empty queue with room for `capacity` batches of events, and the seat that pops.
    /// Requires: `capacity` is 1 to `MOST_PLACES`.
    ///
    /// # Errors
    /// `Memory` if an allocation is refused.
    ///
    /// # Example
    /// ```rust
    /// let (queue, mut taker) = Intake::new(rt.alloc(), 1)?;
    /// let mut seat = queue.split(&mut taker, 5, 2).ok_or("the first split")?;
    /// let event = Event { item: 0, kind: Kind::Write, space: Space::Global, word: 16, names: Names::none() };
    /// if queue.push(&rt, &mut seat, event).is_err() {
    ///     return Err("a push into an empty queue")?;
    /// }
    /// assert_eq!(rt; queue.pop(&rt, &mut taker), Some(Sent { group: 5, event }));
    /// queue.join_back(&mut taker, seat);
    /// ```
    pub fn new(alloc: A, capacity: u32) -> Result<(Intake<A>, TakerSeat<A>), Memory>
        requires { (0 < capacity) × (capacity ≤ MOST_PLACES) }
        ensures room { IfOk result (λ made. made.0.places ≡ capacity) }
        ensures seat { IfOk result (λ made. made.1 ≡ record { queue = made.0.queue; popped = []; sizes = no_sizes; joined = [] }) }
    {
        let (queue, pass) = RuledArrayQueue::ruled(alloc, capacity as usize)?;
        let sizes = none_seated(alloc)?;
        let intake = Intake {
            queue,
            spares: Spares::new(alloc)?,
            leads: Leads::new(alloc)?,
        };
        let seat = TakerSeat {
            pass,
            sizes,
            group: 0,
            rest: Rest::none(alloc),
        };
        Ok((intake, seat))
    }
}

impl<A: Allocator> Intake<A> {
    /// The seat of a work-group with `items` work-items, or `None` if the group has had a seat.
    /// Requires: the taker's seat is of this queue, `group` is below `MOST_GROUPS`, and `items` is 1 to
    /// `MOST_ITEMS_OF_A_GROUP`.
    #[tactic(auto, using(crate::proofs::IntakeSteps::splits_as))]
    pub fn split(&self, taker: &mut TakerSeat<A>, group: u16, items: u16) -> Option<IntakeSeat<A>>
        requires queue { taker.old.queue ≡ self.now.queue }
        requires group { group < MOST_GROUPS }
        requires items { (0 < items) × (items ≤ MOST_ITEMS_OF_A_GROUP) }

        ensures first { IfSome result (λ _. slice_index taker.old.sizes group ≡ 0) }
        ensures seat { IfSome result (λ seat. seat ≡ record { queue = self.now.queue; group = group; items = items; pushed = [] }) }
        ensures taker { IfSome result (λ _. taker.new ≡ record taker.old { sizes = slice_set taker.old.sizes group items }) }

        ensures again { IfNone result (slice_index taker.old.sizes group ≢ 0) }
        ensures unchanged { IfNone result (taker.new ≡ taker.old) }
    {
        if taker.sizes[usize::from(group)] != 0 {
            return None;
        }
        taker.sizes[usize::from(group)] = items;
        let pass = seat_for::<Brand, A>(&self.queue, &mut taker.pass, group, items);
        self.queue.learn_as::<PopStep<IntakeRule>>(&mut taker.pass);
        Some(IntakeSeat { pass, group, items })
    }

    /// Pushes an event of the seat's work-group.
    /// Requires: the seat is of this queue; no end was pushed; the group may have the event (`event_ok`); there is room
    /// for it in the stream: fewer than `MOST_RECORDS` records were pushed.
    ///
    /// # Errors
    /// `Full` with the event, only if the queue was full at some moment of the call. The seat is then unchanged.
    pub fn push<R: Wait>(
        &self,
        rt: &R,
        seat: &mut IntakeSeat<A>,
        event: Event,
    ) -> Result<(), Full<Event>>
        requires queue { seat.old.queue ≡ self.now.queue }
        requires good { IsEventOk event seat.old.items }
        requires unended { IsFalse (is_complete seat.old.pushed) }
        requires room { length seat.old.pushed < MOST_RECORDS }

        ensures ok { OnOk result (seat.new ≡ record seat.old { pushed = seat.old.pushed ++ event ∷ [] }) }

        ensures unchanged { IfErr result (λ back. (back.0 ≡ event) × (seat.new ≡ seat.old)) }
        ensures full { IfErr result (λ _. Held self.now.places (λ batches. AgreesWithSeat seat.old (all_of batches))) }
    {
        let batch = GroupBatch::new(seat.group, Batch::one(event));
        if let Err(back) = self
            .queue
            .push_as::<PushStep<IntakeRule>, R>(rt, &mut seat.pass, batch)
        {
            return Err(Full(back.into_events().1.into_first()));
        }
        Ok(())
    }

    /// Pushes events of the seat's work-group in one step.
    /// Requires: the seat is of this queue; what it pushed, followed by these, is the prefix of a stream.
    ///
    /// # Errors
    /// `Full` with the events, only if the queue was full at some moment of the call. The seat is then unchanged.
    #[tactic(auto, using(crate::proofs::BatchLemmas::sent_here))]
    pub fn push_all<R: Wait>(
        &self,
        rt: &R,
        seat: &mut IntakeSeat<A>,
        events: Batch<Event, A>,
    ) -> Result<(), Full<Batch<Event, A>>>
        requires queue { seat.old.queue ≡ self.now.queue }
        requires stream { IsPrefix seat.old.items (seat.old.pushed ++ events) }

        ensures ok { OnOk result (seat.new ≡ record seat.old { pushed = seat.old.pushed ++ events }) }

        ensures unchanged { IfErr result (λ back. (back.0 ≡ events) × (seat.new ≡ seat.old)) }
        ensures full { IfErr result (λ _. Held self.now.places (λ batches. AgreesWithSeat seat.old (all_of batches))) }
    {
        let batch = GroupBatch::new(seat.group, events);
        if let Err(back) = self
            .queue
            .push_as::<PushStep<IntakeRule>, R>(rt, &mut seat.pass, batch)
        {
            return Err(Full(back.into_events().1));
        }
        Ok(())
    }

    /// Pops an event: of its work-group, the first that was not popped yet. Gives `None` only if the queue was empty at some
    /// moment of the call.
    /// Requires: the seat is of this queue.
    pub fn pop<R: Wait>(&self, rt: &R, taker: &mut TakerSeat<A>) -> Option<Sent>
        requires { taker.old.queue ≡ self.now.queue }

        ensures some { IfSome result (λ sent. taker.new ≡ record taker.old { popped = taker.old.popped ++ sent ∷ [] }) }
        ensures next { IfSome result (IsNextPopped taker.old) }

        ensures unchanged { IfNone result (taker.new ≡ taker.old) }
        ensures empty { IfNone result (Held 0 (λ batches. AgreesWithTaker taker.old (all_of batches))) }

        ensures delivery { IsDelivery taker.new }
    {
        if let Some(event) = taker.rest.next() {
            return Some(Sent {
                group: taker.group,
                event,
            });
        }
        let batch = self
            .queue
            .pop_as::<PopStep<IntakeRule>, R>(rt, &mut taker.pass)?;
        let (group, events) = batch.into_events();
        taker.group = group;
        Some(Sent {
            group,
            event: events.open(&mut taker.rest),
        })
    }

    /// Pops a batch of events, or one event if `pop` has left some of the last batch. Gives `None` only if the queue was empty
    /// at some moment of the call.
    /// Requires: the seat is of this queue.
    pub fn pop_all<R: Wait>(&self, rt: &R, taker: &mut TakerSeat<A>) -> Option<GroupBatch<A>>
        requires { taker.old.queue ≡ self.now.queue }

        ensures some { IfSome result (λ batch. taker.new ≡ record taker.old { popped = taker.old.popped ++ batch }) }

        ensures unchanged { IfNone result (taker.new ≡ taker.old) }
        ensures empty { IfNone result (Held 0 (λ batches. AgreesWithTaker taker.old (all_of batches))) }

        ensures delivery { IsDelivery taker.new }
    {
        if let Some(event) = taker.rest.next() {
            return Some(GroupBatch::new(taker.group, Batch::one(event)));
        }
        let batch = self
            .queue
            .pop_as::<PopStep<IntakeRule>, R>(rt, &mut taker.pass)?;
        Some(batch)
    }

    /// Takes a work-group's seat back, and with it the list of what that pushed. What was popped of the group is a
    /// prefix of this list, and all of it if the end was popped.
    /// Requires: both seats are of this queue.
    pub fn join_back(&self, taker: &mut TakerSeat<A>, seat: IntakeSeat<A>)
        requires taker { taker.old.queue ≡ self.now.queue }
        requires seat { seat.queue ≡ self.now.queue }
        ensures joined { taker.new ≡ record taker.old { joined = taker.old.joined ++ record { group = seat.group; items = seat.items; pushed = seat.pushed } ∷ [] } }

        ensures delivered { IsDelivered taker.new record { group = seat.group; items = seat.items; pushed = seat.pushed } }
        ensures whole { IsTrue (is_complete (popped_of taker.new seat.group)) → popped_of taker.new seat.group ≡ seat.pushed }

        ensures delivery { IsDelivery taker.new }
    {
        self.queue.absorb::<JoinStep>(&mut taker.pass, seat.pass);
        self.queue.learn_as::<PopStep<IntakeRule>>(&mut taker.pass);
    }
}
