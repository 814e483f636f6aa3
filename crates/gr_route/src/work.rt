//! The queue from the sequencer to one worker. One seat pushes accesses, and at last `Stop`; one seat pops them.
//!
//! Invariant: what was popped, followed by what is queued, is what the giver pushed (docs/QUEUES.md, "The work queue").
//! What a seat knows is in its pass, a value without bytes, and the queue's rule keeps it true. Contracts don't see what
//! the queue holds: docs/QUEUES.md, "Full and empty", says what `Full` and `None` mean. The elements of the queue are
//! batches. The seat that pops keeps the rest of the batch that it popped last.

ghost use Rattle.std.specs.Prelude.{◌≡◌, ◌<◌, ◌≤◌, true, false, [], ◌∷◌, ◌++◌, None, Some, IfOk, IfErr, OnOk, IfSome, IfNone, IsTrue, IsFalse};
ghost use Rattle.crossbeam_queue.specs.Fifo.{Held};
ghost use Rattle.gr_route.specs.Prefixes.{StartsWith};
ghost use Rattle.gr_route.specs.Batches.{all_of};
ghost use Rattle.gr_route.specs.WorkRule.{StopsLast, is_stopped};
ghost use Rattle.gr_route.specs.WorkSeats.{AgreesWithGiver, AgreesWithWorker, IsDelivery};

use crate::batch::{Batch, Rest};
use crate::room::Full;
use crate::rule::{JoinStep, PopStep, PushStep, SplitStep, WorkRule, WorkView};
use crate::spares::Spares;
use crossbeam_queue::{Pass, RuledArrayQueue};
use gr_clocks::access::Access;
use gr_model::limits::MOST_PLACES;
use gr_model::memory::Memory;
use std::alloc::{Allocator, Global};
use std::marker::Model;
use std::sync::Wait;

/// What a worker is given.
#[derive(Drop)]
#[derive_where(Debug)]
pub enum Work<A: Allocator = Global> {
    /// An access to apply.
    Access(Access<A>),
    /// There are no more accesses.
    Stop,
}

/// A bounded queue of work. Contracts see which queue it is, and for how many batches of work it has room.
#[derive(Drop)]
pub struct WorkQueue<A: Allocator = Global> {
    queue: RuledArrayQueue<Batch<Work<A>, A>, WorkView<A>, WorkRule, A>,
    /// Lists that held work.
    pub spares: Spares<Work<A>, A>,
}

impl<A: Allocator> Model for WorkQueue<A> {
    ghost use Rattle.crossbeam_queue.specs.Passes.{ruled_capacity};
    ghost use Rattle.gr_route.specs.Rooms.{Room};

    ghost Value = { Room };

    ghost view = { λ q. record { queue = q.queue.table.shared.table_id; places = ruled_capacity q.queue } };
}

/// The seat that pushes. Contracts see its queue, and what it pushed.
#[derive(Drop)]
pub struct GiverSeat<A: Allocator = Global> {
    pass: Pass<Batch<Work<A>, A>, WorkView<A>>,
}

impl<A: Allocator> Model for GiverSeat<A> {
    ghost use Rattle.crossbeam_queue.specs.Passes.{view as known};
    ghost use Rattle.gr_route.specs.Rule.{IsSeatPass};
    ghost use Rattle.gr_route.specs.WorkSeats.{Giver};

    ghost Value = { Giver A };

    ghost view = { λ s. record { queue = s.pass.table_id; pushed = (known s.pass).pushed } };

    ghost invariant = { λ s. IsSeatPass s.pass 0 1 };
}

/// The seat that pops. Contracts see its queue, what it popped, whether the giver's seat was split off, and, if that was
/// joined back, what it had pushed.
#[derive(Drop)]
pub struct WorkerSeat<A: Allocator = Global> {
    pass: Pass<Batch<Work<A>, A>, WorkView<A>>,
    split: bool,
    // What is left of the batch that was popped last.
    rest: Rest<Work<A>, A>,
}

impl<A: Allocator> Model for WorkerSeat<A> {
    ghost use Rattle.gr_route.specs.Rule.{IsTakerPass};
    ghost use Rattle.gr_route.specs.WorkRule.{StopsLast, sizes_of, work_of};
    ghost use Rattle.gr_route.specs.WorkSeats.{Worker, worker_seen};

    ghost Value = { Worker A };

    ghost view = { λ s. worker_seen s.pass s.split s.rest };

    ghost invariant = { λ s. IsTakerPass work_of (λ _. StopsLast) s.pass (sizes_of s.split) s.rest };
}

impl<A: Allocator + Copy> WorkQueue<A> {
    /// An empty queue with room for `capacity` batches of work, and the seat that pops.
    /// Requires: `capacity` is 1 to `MOST_PLACES`.
    ///
    /// # Errors
    /// `Memory` if an allocation is refused.
    pub fn new(alloc: A, capacity: u32) -> Result<(WorkQueue<A>, WorkerSeat<A>), Memory>
        requires { (0 < capacity) × (capacity ≤ MOST_PLACES) }
        ensures room { IfOk result (λ made. made.0.places ≡ capacity) }
        ensures seat { IfOk result (λ made. made.1 ≡ record { queue = made.0.queue; popped = []; split = false; given = None }) }
    {
        let (queue, pass) = RuledArrayQueue::ruled(alloc, capacity as usize)?;
        let seat = WorkerSeat {
            pass,
            split: false,
            rest: Rest::none(alloc),
        };
        let spares = Spares::new(alloc)?;
        Ok((WorkQueue { queue, spares }, seat))
    }
}

impl<A: Allocator> WorkQueue<A> {
    /// The seat that pushes, or `None` if it was split off before.
    /// Requires: the worker's seat is of this queue.
    #[tactic(auto, using(crate::proofs::WorkSteps::splits_as))]
    pub fn split(&self, worker: &mut WorkerSeat<A>) -> Option<GiverSeat<A>>
        requires { worker.old.queue ≡ self.now.queue }

        ensures first { IfSome result (λ _. worker.old.split ≡ false) }
        ensures seat { IfSome result (λ giver. giver ≡ record { queue = self.now.queue; pushed = [] }) }
        ensures worker { IfSome result (λ _. worker.new ≡ record worker.old { split = true }) }

        ensures again { IfNone result (worker.old.split ≡ true) }
        ensures unchanged { IfNone result (worker.new ≡ worker.old) }
    {
        if worker.split {
            return None;
        }
        worker.split = true;
        let pass = self.queue.another::<SplitStep<WorkRule>>(&mut worker.pass);
        self.queue.learn_as::<PopStep<WorkRule>>(&mut worker.pass);
        Some(GiverSeat { pass })
    }

    /// Pushes an access, or `Stop`, after which nothing may be pushed.
    /// Requires: the seat is of this queue; no `Stop` was pushed.
    ///
    /// # Errors
    /// `Full` with the work, only if the queue was full at some moment of the call. The seat is then unchanged.
    #[tactic(auto, using(crate::proofs::WorkSteps::stops_push))]
    pub fn push<R: Wait>(
        &self,
        rt: &R,
        giver: &mut GiverSeat<A>,
        work: Work<A>,
    ) -> Result<(), Full<Work<A>>>
        requires queue { giver.old.queue ≡ self.now.queue }
        requires unstopped { IsFalse (is_stopped giver.old.pushed) }

        ensures ok { OnOk result (giver.new ≡ record giver.old { pushed = giver.old.pushed ++ work ∷ [] }) }

        ensures unchanged { IfErr result (λ back. (back.0 ≡ work) × (giver.new ≡ giver.old)) }
        ensures full { IfErr result (λ _. Held self.now.places (λ batches. AgreesWithGiver giver.old (all_of batches))) }
    {
        match self.push_all(rt, giver, Batch::one(work)) {
            Ok(()) => Ok(()),
            Err(back) => Err(Full(back.0.into_first())),
        }
    }

    /// Pushes work in one step.
    /// Requires: the seat is of this queue; in what it pushed, followed by this, `Stop` comes last if at all.
    ///
    /// # Errors
    /// `Full` with the work, only if the queue was full at some moment of the call. The seat is then unchanged.
    pub fn push_all<R: Wait>(
        &self,
        rt: &R,
        giver: &mut GiverSeat<A>,
        batch: Batch<Work<A>, A>,
    ) -> Result<(), Full<Batch<Work<A>, A>>>
        requires queue { giver.old.queue ≡ self.now.queue }
        requires stops { StopsLast (giver.old.pushed ++ batch) }

        ensures ok { OnOk result (giver.new ≡ record giver.old { pushed = giver.old.pushed ++ batch }) }

        ensures unchanged { IfErr result (λ back. (back.0 ≡ batch) × (giver.new ≡ giver.old)) }
        ensures full { IfErr result (λ _. Held self.now.places (λ batches. AgreesWithGiver giver.old (all_of batches))) }
    {
        self.queue
            .push_as::<PushStep<WorkRule>, R>(rt, &mut giver.pass, batch)
            .map_err(|back| Full(back))
    }

    /// Pops the first work that was not popped yet. Gives `None` only if the queue was empty at some moment of the call.
    /// Requires: the seat is of this queue.
    #[tactic(auto, using(crate::proofs::WorkSteps::kept))]
    pub fn pop<R: Wait>(&self, rt: &R, worker: &mut WorkerSeat<A>) -> Option<Work<A>>
        requires { worker.old.queue ≡ self.now.queue }

        ensures some { IfSome result (λ work. worker.new ≡ record worker.old { popped = worker.old.popped ++ work ∷ [] }) }
        ensures next { IfSome result (λ _. IsFalse (is_stopped worker.old.popped)) }

        ensures unchanged { IfNone result (worker.new ≡ worker.old) }
        ensures empty { IfNone result (Held 0 (λ batches. AgreesWithWorker worker.old (all_of batches))) }

        ensures delivery { IsDelivery worker.new }
    {
        if let Some(work) = worker.rest.next() {
            return Some(work);
        }
        let batch = self
            .queue
            .pop_as::<PopStep<WorkRule>, R>(rt, &mut worker.pass)?;
        Some(batch.open(&mut worker.rest))
    }

    /// Pops a batch of work, or one piece of work if `pop` has left some of the last batch. Gives `None` only if the queue was
    /// empty at some moment of the call.
    /// Requires: the seat is of this queue.
    #[tactic(auto, using(crate::proofs::WorkSteps::kept))]
    pub fn pop_all<R: Wait>(&self, rt: &R, worker: &mut WorkerSeat<A>) -> Option<Batch<Work<A>, A>>
        requires { worker.old.queue ≡ self.now.queue }

        ensures some { IfSome result (λ batch. worker.new ≡ record worker.old { popped = worker.old.popped ++ batch }) }

        ensures unchanged { IfNone result (worker.new ≡ worker.old) }
        ensures empty { IfNone result (Held 0 (λ batches. AgreesWithWorker worker.old (all_of batches))) }

        ensures delivery { IsDelivery worker.new }
    {
        if let Some(work) = worker.rest.next() {
            return Some(Batch::one(work));
        }
        let batch = self
            .queue
            .pop_as::<PopStep<WorkRule>, R>(rt, &mut worker.pass)?;
        Some(batch)
    }

    /// Takes the giver's seat back, and with it the list of what that pushed. What was popped is a prefix of this list,
    /// and all of it if `Stop` was popped.
    /// Requires: both seats are of this queue.
    #[tactic(auto, using(crate::proofs::WorkSteps::given_joined))]
    pub fn join_back(&self, worker: &mut WorkerSeat<A>, giver: GiverSeat<A>)
        requires worker { worker.old.queue ≡ self.now.queue }
        requires giver { giver.queue ≡ self.now.queue }
        ensures given { worker.new ≡ record worker.old { given = Some giver.pushed } }

        ensures prefix { StartsWith giver.pushed worker.new.popped }
        ensures whole { IsTrue (is_stopped worker.new.popped) → worker.new.popped ≡ giver.pushed }

        ensures delivery { IsDelivery worker.new }
    {
        self.queue.absorb::<JoinStep>(&mut worker.pass, giver.pass);
        self.queue.learn_as::<PopStep<WorkRule>>(&mut worker.pass);
    }
}
