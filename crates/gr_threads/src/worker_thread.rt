//! A worker's thread, from its start to its join.

ghost use Rattle.std.specs.Prelude.{◌≡◌, IfSome};

use crate::watch::Watch;
use crate::worker::{Worker, WorkerEnd, work};
use std::alloc::{Allocator, Global};
use std::marker::Model;
use std::snapshot::Snapshot;
use std::sync::{Arc, Wait};
use std::thread;
use std::thread::{Promise, PromisedHandle, Threads};
use std::time::Clock;

/// What a worker's thread promises of its end: its seat is still of the same queue.
#[derive(Drop)]
struct OfWorker<A: Allocator = Global>(Snapshot<Worker<A>>);

impl<A: Allocator> Promise<WorkerEnd<A>> for OfWorker<A> {
    ghost use Rattle.std.specs.Prelude.{◌≡◌};

    ghost kept_by = { λ p r. r.queue ≡ p.0.value.queue };
}

/// A worker's thread that was started. Contracts see the worker that it began with.
#[derive(Drop)]
pub struct WorkerThread<A: Allocator = Global> {
    handle: PromisedHandle<WorkerEnd<A>, OfWorker<A>>,
}

impl<A: Allocator> Model for WorkerThread<A> {
    ghost use Rattle.gr_route.specs.WorkSeats.{Worker as WorkerLists};

    ghost Value = { WorkerLists A };

    ghost view = { λ t. t.handle.promise.0.value };
}

impl<A: Allocator + Copy + Send + Sync + Drop + 'static> WorkerThread<A> {
    /// Starts the worker, or gives `None` if the thread can't be started.
    pub fn start<
        R: Threads + Wait + Clock + Copy + Send + 'static,
        W: Watch + Send + Sync + Drop + 'static,
    >(rt: R, alloc: A, worker: Worker<A>, watch: Arc<W, A>) -> Option<WorkerThread<A>>
        ensures { IfSome result (λ t. t ≡ worker) }
    {
        let promise = OfWorker(Snapshot::of(&worker));
        let handle = thread::spawn_with(
            &rt,
            promise,
            move || work(&rt, alloc, worker, &watch),
        ).ok()?;
        Some(WorkerThread { handle })
    }
}

impl<A: Allocator> WorkerThread<A> {
    /// Waits until the worker has stopped.
    pub fn join<R: Threads>(self, rt: &R) -> WorkerEnd<A>
        ensures { result.queue ≡ self.queue }
    {
        self.handle.join(rt)
    }
}
