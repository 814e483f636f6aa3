//! A worker's thread.

ghost use Rattle.std.specs.Prelude.{◌≡◌, [], ◌∷◌, IfOk, IfSome};
ghost use Rattle.std.specs.Arc.{arc_value};
ghost use Rattle.gr_clocks.specs.ClockedAccess.{clocked};
ghost use Rattle.gr_model.specs.declared.event.Word.TheVariants as words;
ghost use Rattle.gr_model.specs.Prelude.{ClashesAt};
ghost use Rattle.gr_route.specs.declared.work.Work.TheVariants as works;
ghost use Rattle.gr_shadow.specs.Clashes.{ClockedAccess, clashes};

use crate::route::tests::queues::write_by;
use gr_clocks::access::Access;
use gr_model::memory::Memory;
use gr_route::work::{GiverSeat, Work, WorkQueue, WorkerSeat};
use gr_threads::watch::NoWatch;
use gr_threads::worker::{Worker, work};
use std::alloc::Global;
use std::sync::{Arc, Wait};
use std::test::*;
use std::time::Clock;

/// Two writes of global word 7 by two items, neither of which counts the other.
fn two_writes(alloc: Global) -> Result<(Access, Access), Memory>
    ensures { IfOk result (λ two. ClashesAt (λ (x : ClockedAccess). x.word) clashes (words.Global 7) (clocked two.0) (clocked two.1)) }
{
    Ok((write_by(alloc, 0)?, write_by(alloc, 1)?))
}

/// Pushes two accesses and `Stop`.
fn give<R: Wait>(
    rt: &R,
    queue: &WorkQueue,
    seat: &mut WorkerSeat,
    first: Access,
    second: Access,
) -> Option<GiverSeat>
    requires { seat.old.queue ≡ queue.now.queue }
    ensures given { IfSome result (λ giver. giver ≡ record { queue = queue.now.queue; pushed = works.Access first ∷ works.Access second ∷ works.Stop ∷ [] }) }
    ensures seat { IfSome result (λ _. seat.new ≡ record seat.old { split = seat.new.split }) }
{
    let mut giver = queue.split(seat)?;
    queue.push(rt, &mut giver, Work::Access(first)).ok()?;
    queue.push(rt, &mut giver, Work::Access(second)).ok()?;
    queue.push(rt, &mut giver, Work::Stop).ok()?;
    Some(giver)
}

/// Two writes of a word are a hit if neither counts the other.
fn settle_of_two_writes<R: Wait + Clock>(
    rt: &R,
    alloc: Global,
    queue: Arc<WorkQueue, Global>,
    mut seat: WorkerSeat,
    first: Access,
    second: Access,
) -> Option<()>
    requires queue { seat.queue ≡ (arc_value queue).queue }
    requires fresh { seat.popped ≡ [] }
    requires clash { ClashesAt (λ (x : ClockedAccess). x.word) clashes (words.Global 7) (clocked first) (clocked second) }
{
    let giver = give(rt, &queue, &mut seat, first, second)?;
    let watch = Arc::new(alloc, NoWatch).ok()?;
    let end = work(rt, alloc, Worker::new(0, queue, seat), &watch);
    let Ok(words) = end.settle(giver) else {
        return None;
    };
    prove!(!words.is_empty());
    Some(())
}

#[test]
fn a_worker(rt: HostRuntime) -> Result<(), Fail> {
    let (first, second) = two_writes(rt.alloc())?;
    let (queue, seat) = WorkQueue::new(rt.alloc(), 3)?;
    let queue = Arc::new(rt.alloc(), queue)?;
    assert_eq!(rt;
        settle_of_two_writes(&rt, rt.alloc(), queue, seat, first, second),
        Some(())
    );
    Ok(())
}
