//! Laws of what goes through the queues. Each is the contract of a function that does nothing.

ghost use Rattle.gr_route.specs.Prefixes.{EndMakesWhole, EndMakesAccepted};
ghost use Rattle.gr_route.specs.IntakeSeats.{SeatTells, TakerTells};
ghost use Rattle.gr_route.specs.WorkRule.{StopMakesWhole};
ghost use Rattle.gr_route.specs.WorkSeats.{GiverTells, WorkerTells};

use std::alloc::Allocator;

/// Once the end of a work-group was popped, all that was sent of it was popped. It is then a list that the model accepts.
pub fn end_makes_whole()
    ensures whole { EndMakesWhole }
    ensures accepted { EndMakesAccepted }
{}

/// Once `Stop` of a work queue was popped, all that was pushed was popped.
#[tactic(auto, using(crate::proofs::WorkSteps::stop_makes_whole))]
pub fn stop_makes_whole<A: Allocator>()
    ensures { StopMakesWhole A }
{}

/// What an intake queue holds, if it agrees with a seat that pushes or with the seat that pops.
pub fn intake_seats_tell()
    ensures seat { SeatTells }
    ensures taker { TakerTells }
{}

/// What a work queue holds, if it agrees with the seat that pushes or with the seat that pops.
#[tactic(auto, using(crate::proofs::WorkSteps::giver_tells, crate::proofs::WorkSteps::worker_tells))]
pub fn work_seats_tell<A: Allocator>()
    ensures giver { GiverTells A }
    ensures worker { WorkerTells A }
{}
