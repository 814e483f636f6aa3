//! The end of a run that could not start all its threads.
//!
//! Only the join of a thread gives the value that it leaves. So a caller that has the values of all threads has joined them all.

ghost use Rattle.std.specs.Prelude.{◌≡◌, ◌≤◌, [], vec_capacity, vec_len};
ghost use Rattle.gr_detector.specs.Runs.{worker_queues};

use gr_sequencer_thread::end::SequencerEnd;
use gr_threads::sender::Sender;
use gr_threads::worker::WorkerEnd;
use gr_threads::worker_thread::WorkerThread;
use std::alloc::Allocator;
use std::sync::Wait;
use std::thread::Threads;
use std::time::Clock;

/// What the threads of a stopped run leave.
#[derive(Drop)]
pub(crate) struct Stopped<A: Allocator> {
    pub(crate) sequencer: SequencerEnd<A>,
    pub(crate) workers: Vec<WorkerEnd<A>, A>,
}

/// Ends all streams.
pub(crate) fn close_all<R: Wait + Clock, A: Allocator>(rt: &R, senders: Vec<Sender<A>, A>) {
    for sender in senders {
        let mut sender = sender;
        // This does not fail: the sender is open, and waits until there is room.
        let _ = sender.close_wait(rt, true);
    }
}

/// Joins the threads of workers. Returns what they leave, in order.
/// Requires: there is room for it.
pub(crate) fn join_workers<R: Threads, A: Allocator>(
    rt: &R,
    workers: Vec<WorkerThread<A>, A>,
    ends: Vec<WorkerEnd<A>, A>,
) -> Vec<WorkerEnd<A>, A>
    requires none { ends.items ≡ [] }
    requires room { vec_len workers ≤ vec_capacity ends }
    ensures queues { worker_queues result.items ≡ worker_queues workers.items }
    ensures count { vec_len result ≡ vec_len workers }
{
    let mut ends = ends;
    for worker in workers {
        ends.push_reserved(worker.join(rt));
    }
    ends
}
