//! The parts of a run: its queues, the seats at both ends of each, and the senders.

ghost use Rattle.std.specs.Prelude.{◌≡◌, ◌<◌, ◌≤◌, [], All, IfOk, length};
ghost use Rattle.gr_route.specs.IntakeRule.{no_sizes};
ghost use Rattle.gr_sequencer_thread.specs.Feeds.{AreSeated, intakes_of, works_of};
ghost use Rattle.gr_detector.specs.Runs.{AreSendersOf, worker_queues};

use gr_model::config::{Config, queue_of};
use gr_model::limits::MOST_PLACES;
use gr_model::memory::Memory;
use gr_model::shape::Shape;
use gr_route::work::WorkQueue;
use gr_sequencer_thread::inlet::Inlet;
use gr_sequencer_thread::outlet::Outlet;
use gr_threads::sender::Sender;
use gr_threads::worker::Worker;
use std::alloc::Allocator;
use std::sync::Arc;

/// New intake queues: the ends that the sequencer pops from.
pub(crate) fn inlets_of<A: Allocator + Copy>(
    alloc: A,
    config: Config,
) -> Result<Vec<Inlet<A>, A>, Memory>
    ensures count { IfOk result (λ inlets. length inlets.items ≡ config.queues) }
    ensures fresh { IfOk result (λ inlets. All (λ t. (t.popped ≡ []) × (t.sizes ≡ no_sizes)) inlets.items) }
{
    let mut inlets = Vec::new(alloc);
    for _ in 0..config.queues() {
        inlets.push(Inlet::new(alloc, config.capacity())?)?;
    }
    Ok(inlets)
}

/// The senders of all work-groups of a launch of this shape, in order.
pub(crate) fn senders_of<A: Allocator + Copy>(
    alloc: A,
    config: Config,
    shape: &Shape<A>,
    inlets: &mut Vec<Inlet<A>, A>,
) -> Result<Vec<Sender<A>, A>, Memory>
    requires count { length inlets.old.items ≡ config.queues }
    requires fresh { All (λ t. (t.popped ≡ []) × (t.sizes ≡ no_sizes)) inlets.old.items }
    ensures queues { IfOk result (λ _. intakes_of inlets.new.items ≡ intakes_of inlets.old.items) }
    ensures unpopped { IfOk result (λ _. All (λ t. t.popped ≡ []) inlets.new.items) }
    ensures seated { IfOk result (λ _. AreSeated config shape.now inlets.new.items) }
    ensures senders { IfOk result (λ senders. AreSendersOf (record { config = config; sizes = shape.now; intakes = intakes_of inlets.old.items }) senders.items) }
{
    let mut senders = Vec::new(alloc);
    for group in 0..shape.groups() {
        let queue = usize::from(queue_of(group, config.queues()));
        senders.push(inlets[queue].sender(group, shape.items(group))?)?;
    }
    Ok(senders)
}

/// A new queue: the end that the sequencer pushes to, and the worker with this number, which pops from it.
fn line_of<A: Allocator + Copy>(
    alloc: A,
    number: u16,
    capacity: u32,
) -> Result<(Outlet<A>, Worker<A>), Memory>
    requires { (0 < capacity) × (capacity ≤ MOST_PLACES) }
    ensures queue { IfOk result (λ line. line.1.queue ≡ line.0.queue) }
    ensures pushed { IfOk result (λ line. line.0.pushed ≡ []) }
{
    let (queue, mut seat) = WorkQueue::new(alloc, capacity)?;
    let Some(giver) = queue.split(&mut seat) else {
        unreachable!()
    };
    let queue = Arc::new(alloc, queue)?;
    let theirs = Arc::try_clone(&queue)?;
    Ok((Outlet::new(queue, giver), Worker::new(number, theirs, seat)))
}

/// New work queues: the ends that the sequencer pushes to, and the workers, in order.
pub(crate) fn workers_of<A: Allocator + Copy>(
    alloc: A,
    config: Config,
) -> Result<(Vec<Outlet<A>, A>, Vec<Worker<A>, A>), Memory>
    ensures count { IfOk result (λ worker_count. (length worker_count.0.items ≡ config.workers) × (length worker_count.1.items ≡ config.workers)) }
    ensures queues { IfOk result (λ worker_count. worker_queues worker_count.1.items ≡ works_of worker_count.0.items) }
    ensures ungiven { IfOk result (λ worker_count. All (λ o. o.pushed ≡ []) worker_count.0.items) }
{
    let mut outlets = Vec::new(alloc);
    let mut workers = Vec::new(alloc);
    for number in 0..config.workers() {
        let (outlet, worker) = line_of(alloc, number, config.capacity())?;
        outlets.push(outlet)?;
        workers.push(worker)?;
    }
    Ok((outlets, workers))
}
