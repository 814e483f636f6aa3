//! The end of a worker's queue that the sequencer pushes to.

ghost use Rattle.std.specs.Prelude.{◌≡◌, ◌++◌, ◌∷◌, [], IfErr, OnOk, IsFalse, IsTrue};
ghost use Rattle.std.specs.Arc.{arc_value};
ghost use Rattle.gr_route.specs.declared.work.Work.TheVariants.{Stop};
ghost use Rattle.gr_route.specs.WorkRule.{is_stopped};
ghost use Rattle.gr_sequencer_thread.specs.Feeds.{AreOpen, AreStopped, given_of, works_of};
ghost use Rattle.gr_threads.specs.Given.{accesses_in};

use gr_route::batch::Batch;
use gr_route::room::Full;
use gr_route::work::{GiverSeat, Work, WorkQueue};
use gr_threads::idle::Idle;
use std::alloc::{Allocator, Global};
use std::marker::Model;
use std::sync::{Arc, Wait};
use std::time::Clock;

/// The end of a worker's queue that the sequencer pushes to. Contracts see its seat.
#[derive(Drop)]
pub struct Outlet<A: Allocator = Global> {
    pub(crate) queue: Arc<WorkQueue<A>, A>,
    seat: GiverSeat<A>,
}

impl<A: Allocator> Model for Outlet<A> {
    ghost use Rattle.std.specs.Prelude.{◌≡◌};
    ghost use Rattle.std.specs.Arc.{arc_value};
    ghost use Rattle.gr_route.specs.WorkSeats.{Giver};

    ghost Value = { Giver A };

    ghost view = { λ o. o.seat };

    ghost invariant = { λ o. o.seat.queue ≡ (arc_value o.queue).queue };
}

impl<A: Allocator> Outlet<A> {
    /// The end of the queue of the seat.
    pub fn new(queue: Arc<WorkQueue<A>, A>, seat: GiverSeat<A>) -> Outlet<A>
        requires { seat.queue ≡ (arc_value queue).queue }
        ensures { result ≡ seat }
    {
        Outlet { queue, seat }
    }

    /// Pushes accesses in one step, or gives them back if there is no room.
    pub(crate) fn push_all<R: Wait>(
        &mut self,
        rt: &R,
        batch: Batch<Work<A>, A>,
    ) -> Result<(), Full<Batch<Work<A>, A>>>
        requires open { IsFalse (is_stopped self.old.pushed) }
        requires accesses { IsFalse (is_stopped batch) }
        ensures ok { OnOk result (self.new ≡ record self.old { pushed = self.old.pushed ++ batch }) }
        ensures unchanged { IfErr result (λ back. (back.0 ≡ batch) × (self.new ≡ self.old)) }
    {
        self.queue.push_all(rt, &mut self.seat, batch)
    }

    /// Pushes `Stop` as soon as there is room.
    #[tactic(auto, using(gr_threads::proofs::Givens::stop_given, gr_threads::proofs::Givens::stop_stops))]
    fn stop<R: Wait + Clock>(&mut self, rt: &R)
        requires { IsFalse (is_stopped self.old.pushed) }
        ensures same { (self.new.queue ≡ self.old.queue) × (accesses_in self.new.pushed ≡ accesses_in self.old.pushed) }
        ensures stopped { IsTrue (is_stopped self.new.pushed) }
    {
        let idle = Idle::new();
        for _ in rt.forever() {
            match self.queue.push(rt, &mut self.seat, Work::Stop) {
                Ok(()) => return,
                Err(_) => idle.wait(rt),
            }
        }
        unreachable!()
    }

    /// The seat, to be joined back into the worker's.
    pub fn into_seat(self) -> GiverSeat<A>
        ensures { result ≡ self }
    {
        self.seat
    }
}

/// Pushes `Stop` to each worker.
pub(crate) fn stop_all<R: Wait + Clock, A: Allocator>(rt: &R, outlets: &mut Vec<Outlet<A>, A>)
    requires { AreOpen outlets.old.items }
    ensures queues { works_of outlets.new.items ≡ works_of outlets.old.items }
    ensures given { given_of outlets.new.items ≡ given_of outlets.old.items }
    ensures stopped { AreStopped outlets.new.items }
{
    for worker in 0..outlets.len() {
        outlets[worker].stop(rt);
    }
}
