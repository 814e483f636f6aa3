//! Runs from their start to their report.

ghost use Rattle.std.specs.Prelude.{◌≡◌, All, IfOk, IfSome, OnOk};
ghost use Rattle.gr_detector.specs.Runs.{AreReceiptsOf};
ghost use Rattle.gr_threads_tests.specs.Senders.{IsReceipt, IsSender};

use gr_detector::Watch;
use gr_detector::error::{FinishError, StartError};
use gr_detector::running::Running;
use gr_detector::start::start;
use gr_model::config::Config;
use gr_model::shape::Shape;
use gr_report::report::Report;
use gr_threads::receipt::Receipt;
use gr_threads::sender::Sender;
use std::alloc::Allocator;
use std::sync::{Arc, Wait};
use std::thread::Threads;
use std::time::Clock;

/// Why a run has no report.
#[derive(Clone, Copy, Debug, PartialEq, Eq)]
pub enum Ended {
    /// Memory ran out before it was started.
    NotStarted,
    /// Memory ran out in it.
    Memory,
    /// A thread, a sender or room for a receipt was missing, a sender was refused, or `finish` gave all back, or did not.
    Wrongly,
}

/// The set-up of a run: the items of each group, the workers, the queues, and the places of each queue.
pub type Plan<'a> = (&'a [u16], u16, u16, u32);

/// The shape and the configuration of a plan.
fn set_up<A: Allocator>(alloc: A, plan: Plan<'_>) -> Result<(Shape<A>, Config), Ended> {
    let (sizes, workers, queues, capacity) = plan;
    let config = Config::new(workers, queues, capacity).map_err(|_| Ended::Wrongly)?;
    let sizes = Vec::from_slice(alloc, sizes).map_err(|_| Ended::NotStarted)?;
    let shape = Shape::new(sizes).map_err(|_| Ended::Wrongly)?;
    Ok((shape, config))
}

/// Starts a run.
pub fn begin<
    R: Threads + Wait + Clock + Copy + Send + 'static,
    A: Allocator + Copy + Send + Sync + Drop + 'static,
    W: Watch + Send + Sync + Drop + 'static,
>(
    rt: R,
    alloc: A,
    plan: Plan<'_>,
    watch: Arc<W, A>,
) -> Result<(Vec<Sender<A>, A>, Running<A>), Ended>
    ensures { IfOk result (λ made. All (IsSender made.1) made.0.items) }
{
    let (shape, config) = set_up(alloc, plan)?;
    match start(rt, alloc, shape, config, watch) {
        Ok(started) => Ok(started),
        Err(StartError::Memory) => Err(Ended::NotStarted),
        Err(StartError::Threads) => Err(Ended::Wrongly),
    }
}

/// The last of the senders of a run, or `None` if none is left.
pub fn pop_last<A: Allocator>(
    running: &Running<A>,
    senders: &mut Vec<Sender<A>, A>,
) -> Option<Sender<A>>
    requires { All (IsSender running.now) senders.old.items }
    ensures left { All (IsSender running.now) senders.new.items }
    ensures last { IfSome result (IsSender running.now) }
{
    senders.pop()
}

/// The two senders of a run, or `None` if there are fewer.
pub fn two_of<A: Allocator>(
    running: &Running<A>,
    mut senders: Vec<Sender<A>, A>,
) -> Option<(Sender<A>, Sender<A>)>
    requires { All (IsSender running.now) senders.items }
    ensures first { IfSome result (λ two. IsSender running.now two.0) }
    ensures second { IfSome result (λ two. IsSender running.now two.1) }
{
    let second = pop_last(running, &mut senders);
    pop_last(running, &mut senders).zip(second)
}

/// Adds a receipt to others of the same run. It is there unless its sender was refused.
pub fn add<A: Allocator>(
    running: &Running<A>,
    receipts: &mut Vec<Receipt<A>, A>,
    receipt: Option<Receipt<A>>,
) -> Result<(), Ended>
    requires all { AreReceiptsOf running.now receipts.old.items }
    requires one { IfSome receipt (IsReceipt running.now) }
    ensures { OnOk result (AreReceiptsOf running.now receipts.new.items) }
{
    let receipt = receipt.ok_or(Ended::Wrongly)?;
    receipts.push(receipt).map_err(|_| Ended::Wrongly)
}

/// Hands in some of the receipts, which come back with the run.
fn hand_in<R: Threads, A: Allocator + Copy>(
    rt: &R,
    running: Running<A>,
    receipts: Vec<Receipt<A>, A>,
) -> Result<(Running<A>, Vec<Receipt<A>, A>), Ended>
    requires { AreReceiptsOf running receipts.items }
    ensures { IfOk result (λ back. AreReceiptsOf back.0 back.1.items × (back.0 ≡ running)) }
{
    match running.finish(rt, receipts) {
        Err(FinishError::Receipts(running, receipts)) => Ok((running, receipts)),
        _ => Err(Ended::Wrongly),
    }
}

/// The report of a run with these receipts and a last one, which is there unless its sender was refused. Without it the others come back.
pub fn finish_with<R: Threads, A: Allocator + Copy>(
    rt: &R,
    running: Running<A>,
    receipts: Vec<Receipt<A>, A>,
    last: Option<Receipt<A>>,
) -> Result<Report<A>, Ended>
    requires all { AreReceiptsOf running receipts.items }
    requires one { IfSome last (IsReceipt running) }
{
    let (running, mut receipts) = hand_in(rt, running, receipts)?;
    add(&running, &mut receipts, last)?;
    match running.finish(rt, receipts) {
        Ok(report) => Ok(report),
        Err(FinishError::Memory) => Err(Ended::Memory),
        Err(FinishError::Receipts(_, _)) => Err(Ended::Wrongly),
    }
}
