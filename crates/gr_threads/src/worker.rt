//! A worker, at its start and at its end.
//!
//! Invariant of its end: it popped `Stop`, and unless memory ran out, its shadows are those of all accesses that it popped.

ghost use Rattle.std.specs.Prelude.{◌≡◌, ◌<◌, ◌++◌, ◌∷◌, [], true, false, IfOk, IfSome, List, MatchOption, OnOk};
ghost use Rattle.std.specs.Arc.{arc_value};
ghost use Rattle.gr_clocks.specs.ClockedAccess.{ClockedAccess};
ghost use Rattle.gr_model.specs.Prelude.{Lists, WordBelow};
ghost use Rattle.gr_shadow.specs.Clashes.{IsHitIn};
ghost use Rattle.gr_shadow.specs.Launches.{StandsForLaunch};
ghost use Rattle.gr_route.specs.WorkRule.{is_stopped};
ghost use Rattle.gr_threads.specs.Given.{accesses_in};

use crate::idle::Idle;
use crate::watch::Watch;
use gr_model::event::Word;
use gr_model::memory::Memory;
use gr_route::batch::Batch;
use gr_route::work::{GiverSeat, Work, WorkQueue, WorkerSeat};
use gr_shadow::launch::LaunchShadows;
use std::alloc::{Allocator, Global};
use std::marker::Model;
use std::sync::{Arc, Wait};
use std::time::Clock;

/// A worker that has popped nothing. Contracts see its seat.
#[derive(Drop)]
pub struct Worker<A: Allocator = Global> {
    number: u16,
    queue: Arc<WorkQueue<A>, A>,
    seat: WorkerSeat<A>,
}

impl<A: Allocator> Model for Worker<A> {
    ghost use Rattle.std.specs.Prelude.{◌≡◌, []};
    ghost use Rattle.std.specs.Arc.{arc_value};
    ghost use Rattle.gr_route.specs.WorkSeats.{Worker as WorkerLists};

    ghost Value = { WorkerLists A };

    ghost view = { λ w. w.seat };

    ghost invariant = { λ w. (w.seat.queue ≡ (arc_value w.queue).queue) × (w.seat.popped ≡ []) };
}

/// A worker that has stopped. Contracts see its seat.
#[derive(Drop)]
pub struct WorkerEnd<A: Allocator = Global> {
    queue: Arc<WorkQueue<A>, A>,
    seat: WorkerSeat<A>,
    // `None` if memory ran out.
    shadows: Option<LaunchShadows<A>>,
}

impl<A: Allocator> Model for WorkerEnd<A> {
    ghost use Rattle.std.specs.Prelude.{◌≡◌, IfSome, IsTrue};
    ghost use Rattle.std.specs.Arc.{arc_value};
    ghost use Rattle.gr_route.specs.WorkRule.{is_stopped};
    ghost use Rattle.gr_route.specs.WorkSeats.{Worker as WorkerLists};
    ghost use Rattle.gr_shadow.specs.Launches.{StandsForLaunch};
    ghost use Rattle.gr_threads.specs.Given.{accesses_in};

    ghost Value = { WorkerLists A };

    ghost view = { λ w. w.seat };

    ghost invariant = { λ w. (w.seat.queue ≡ (arc_value w.queue).queue) × IsTrue (is_stopped w.seat.popped)
        × IfSome w.shadows (StandsForLaunch (accesses_in w.seat.popped)) };
}

impl<A: Allocator> Worker<A> {
    /// The worker with a number, over the popping seat of its queue.
    /// Requires: the seat has popped nothing.
    pub fn new(number: u16, queue: Arc<WorkQueue<A>, A>, seat: WorkerSeat<A>) -> Worker<A>
        requires queue { seat.queue ≡ (arc_value queue).queue }
        requires fresh { seat.popped ≡ [] }
        ensures { result ≡ seat }
    {
        Worker {
            number,
            queue,
            seat,
        }
    }
}

/// Applies work to the shadows.
fn shade<A: Allocator + Copy, W: Watch>(
    shadows: &mut LaunchShadows<A>,
    number: u16,
    work: &Work<A>,
    watch: &Arc<W, A>,
) -> Result<(), Memory>
    ensures { (accesses : List ClockedAccess) → StandsForLaunch accesses shadows.old → OnOk result (StandsForLaunch (accesses ++ accesses_in (work.now ∷ [])) shadows.new) }
{
    let Work::Access(access) = work else {
        return Ok(());
    };
    watch.at_access(number);
    if let Some(word) = shadows.apply(access)? {
        watch.at_race(number, &word);
    }
    Ok(())
}

/// Applies all work of a batch.
fn shade_all<A: Allocator + Copy, W: Watch>(
    shadows: &mut LaunchShadows<A>,
    number: u16,
    batch: &Batch<Work<A>, A>,
    watch: &Arc<W, A>,
) -> Result<(), Memory>
    ensures { (accesses : List ClockedAccess) → StandsForLaunch accesses shadows.old → OnOk result (StandsForLaunch (accesses ++ accesses_in batch.now) shadows.new) }
{
    for place in 0..batch.len() {
        shade(shadows, number, batch.get(place).unwrap(), watch)?;
    }
    Ok(())
}

/// Applies all work of a batch, unless memory ran out before. Then drops the shadows of the local words of the groups that it
/// reports as ended. All shadows are lost if memory runs out now.
fn shade_batch<A: Allocator + Copy, W: Watch>(
    shadows: Option<LaunchShadows<A>>,
    number: u16,
    batch: &Batch<Work<A>, A>,
    watch: &Arc<W, A>,
) -> Option<LaunchShadows<A>>
    ensures { (accesses : List ClockedAccess) → IfSome shadows (StandsForLaunch accesses) → IfSome result (StandsForLaunch (accesses ++ accesses_in batch.now)) }
{
    let mut shadows = shadows?;
    if let Err(Memory) = shade_all(&mut shadows, number, batch, watch) {
        return None;
    }
    for group in batch.ended() {
        shadows.close(*group);
    }
    Some(shadows)
}

/// Gives the list of a batch back, to be filled again. Its accesses are dropped there: then one thread alone counts who shares a clock.
fn give_back<R: Wait, A: Allocator>(
    rt: &R,
    queue: &Arc<WorkQueue<A>, A>,
    batch: Batch<Work<A>, A>,
) {
    if let Some(list) = batch.into_list() {
        queue.spares.put(rt, list);
    }
}

/// Applies the accesses that come through the worker's queue, until `Stop` comes. If memory runs out, it goes on popping,
/// and applies nothing more.
pub fn work<R: Wait + Clock, A: Allocator + Copy, W: Watch>(
    rt: &R,
    alloc: A,
    worker: Worker<A>,
    watch: &Arc<W, A>,
) -> WorkerEnd<A>
    ensures { result.queue ≡ worker.queue }
{
    let Worker {
        number,
        queue,
        mut seat,
    } = worker;
    let mut shadows = Some(LaunchShadows::new(alloc));
    let idle = Idle::new();
    for _ in rt.forever() {
        let Some(batch) = queue.pop_all(rt, &mut seat) else {
            idle.wait(rt);
            continue;
        };
        idle.reset();
        shadows = shade_batch(shadows, number, &batch, watch);
        if let Work::Stop = batch.last() {
            return WorkerEnd {
                queue,
                seat,
                shadows,
            };
        }
        give_back(rt, &queue, batch);
    }
    unreachable!()
}

impl<A: Allocator + Copy> WorkerEnd<A> {
    /// Takes the giver's seat back. Gives the words that are hit in the accesses that it gave: in ascending order, each once.
    ///
    /// # Errors
    /// `Memory`, also if memory ran out while the worker worked.
    pub fn settle(self, giver: GiverSeat<A>) -> Result<Vec<Word, A>, Memory>
        requires { giver.queue ≡ self.queue }
        ensures { IfOk result (λ words. Lists WordBelow (IsHitIn (accesses_in giver.pushed)) words.items) }
    {
        let WorkerEnd {
            queue,
            mut seat,
            shadows,
        } = self;
        queue.join_back(&mut seat, giver);
        shadows.ok_or(Memory)?.racy()
    }
}
