//! The rule of both kinds of queue, over what a queue holds and what each of its seats knows.
//!
//! Of each work-group, what was popped, followed by what is queued, is what its seat pushed. A work queue is the case of one
//! group. docs/QUEUES.md, "The rule", explains this in words.

use crate::batch::Batch;
use crate::group_batch::GroupBatch;
use crate::work::Work;
use crossbeam_queue::protocol::{Join, Lesson, Outcome, Protocol, Split};
use gr_model::event::{Event, Sent};
use std::alloc::{Allocator, Global};
use std::collections::LinkedList;
use std::marker::{Brand, PhantomData};

/// A group's seat that was joined back. Only contracts use it.
pub struct Joined<T> {
    /// The number of the group.
    pub group: u16,
    /// How many work-items the group has.
    pub items: u16,
    /// What the seat had pushed.
    pub pushed: LinkedList<T>,
}

/// What a seat knows. Only contracts use it: no value of it is made.
pub struct SeatView<E, T> {
    /// Whether it is a group's seat, which may push.
    pub pushes: bool,
    /// Of a group's seat: the number of the group. Else 0.
    pub group: u16,
    /// Of a group's seat: how many work-items the group has. Else 0.
    pub items: u16,
    /// Of a group's seat: what it pushed. Else nothing.
    pub pushed: LinkedList<T>,
    /// Whether it is the seat that may pop.
    pub pops: bool,
    /// Of the seat that pops: what it popped. Else nothing.
    pub popped: LinkedList<E>,
    /// Of the seat that pops: for each group, how many work-items it has, or 0 if it has had no seat. Else nothing.
    pub sizes: LinkedList<u16>,
    /// Of the seat that pops: the seats that were joined back. Else nothing.
    pub joined: LinkedList<Joined<T>>,
}

/// What a seat of an intake queue knows: events are pushed, and popped with their group.
pub type IntakeView = SeatView<Sent, Event>;

/// What a seat of a work queue knows. All work is of group 0.
pub type WorkView<A = Global> = SeatView<Work<A>, Work<A>>;

/// The rule of an intake queue: what a work-group's seat pushed is the prefix of a stream.
pub struct IntakeRule;

/// The rule of a work queue: in what the giver pushed `Stop` comes last if at all.
pub struct WorkRule;

impl<A: Allocator> Protocol<GroupBatch<A>, IntakeView> for IntakeRule {
    ghost use Rattle.std.specs.Prelude.{[]};
    ghost use Rattle.gr_route.specs.IntakeRule.{SeatsAgree, no_sizes};
    ghost use Rattle.gr_route.specs.Rule.{BatchesAgree, taker_of};

    ghost holds = { BatchesAgree SeatsAgree };

    ghost first = { taker_of [] no_sizes [] };
}

impl<A: Allocator> Protocol<Batch<Work<A>, A>, WorkView<A>> for WorkRule {
    ghost use Rattle.std.specs.Prelude.{[], false};
    ghost use Rattle.gr_route.specs.Rule.{BatchesAgree, taker_of};
    ghost use Rattle.gr_route.specs.WorkRule.{SeatsAgree, sizes_of};

    ghost holds = { BatchesAgree SeatsAgree };

    ghost first = { taker_of [] (sizes_of false) [] };
}

/// The group and the number of items for which a seat is split off. It is a type, since step types take no values. Only proofs read it.
pub trait NamesGroup {
    ghost use Rattle.std.specs.Prelude.{ℕ};

    ghost group: { ℕ };

    ghost items: { ℕ };
}

impl NamesGroup for Brand {
    ghost group = { 0 };

    ghost items = { 0 };
}

/// A work queue has one group.
impl NamesGroup for WorkRule {
    ghost group = { 0 };

    ghost items = { 1 };
}

/// A step of a rule, for proofs only: a group's seat is split off the one that pops.
pub struct SplitStep<G>(PhantomData<G>);

impl<E, T, G: NamesGroup> Split<SeatView<E, T>> for SplitStep<G> {
    ghost use Rattle.std.specs.Prelude.{[]};
    ghost use Rattle.gr_route.specs.Rule.{after_split, seat_of};

    ghost left = { after_split G.group G.items };

    ghost right = { λ _. seat_of G.group G.items [] };
}

/// A step of a rule, for proofs only: a group's seat is joined back into the one that pops.
pub struct JoinStep;

impl<E, T> Join<SeatView<E, T>> for JoinStep {
    ghost use Rattle.gr_route.specs.Rule.{after_join, spent_view};

    ghost both = { after_join };

    ghost spent = { spent_view };
}

/// A step of the rule `P`, for proofs only: a batch is pushed, or refused.
pub struct PushStep<P>(PhantomData<P>);

impl<B, V, P: Protocol<B, V>> Lesson<B, V> for PushStep<P> {
    ghost use Rattle.gr_route.specs.Rooms.{AgreesWith};

    ghost fact = { AgreesWith P.holds };
}

impl<A: Allocator> Outcome<GroupBatch<A>, IntakeView> for PushStep<IntakeRule> {
    ghost use Rattle.gr_model.specs.Prelude.{events_of};
    ghost use Rattle.gr_route.specs.Rule.{Pushes};

    ghost then = { Pushes events_of };
}

impl<A: Allocator> Outcome<Batch<Work<A>, A>, WorkView<A>> for PushStep<WorkRule> {
    ghost use Rattle.gr_route.specs.Rule.{Pushes};
    ghost use Rattle.gr_route.specs.WorkRule.{work_of};

    ghost then = { Pushes work_of };
}

/// A step of the rule `P`, for proofs only: a batch is popped, or there is none.
pub struct PopStep<P>(PhantomData<P>);

impl<B, V, P: Protocol<B, V>> Lesson<B, V> for PopStep<P> {
    ghost use Rattle.gr_route.specs.Rooms.{AgreesWith};

    ghost fact = { AgreesWith P.holds };
}

impl<A: Allocator> Outcome<GroupBatch<A>, IntakeView> for PopStep<IntakeRule> {
    ghost use Rattle.gr_route.specs.IntakeRule.{SeatsAgree};
    ghost use Rattle.gr_route.specs.Rule.{Pops};

    ghost then = { Pops SeatsAgree };
}

impl<A: Allocator> Outcome<Batch<Work<A>, A>, WorkView<A>> for PopStep<WorkRule> {
    ghost use Rattle.gr_route.specs.Rule.{Pops};
    ghost use Rattle.gr_route.specs.WorkRule.{SeatsAgree};

    ghost then = { Pops SeatsAgree };
}
