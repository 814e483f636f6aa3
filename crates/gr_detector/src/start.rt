//! The start of a run.

ghost use Rattle.std.specs.Prelude.{◌≡◌, ◌<◌, ◌≤◌, [], IfErr, IfOk, IfSome, length, take, vec_capacity, vec_len};
ghost use Rattle.gr_sequencer_thread.specs.Ends.{begin_line, end_line};
ghost use Rattle.gr_sequencer_thread.specs.Feeds.{works_of};
ghost use Rattle.gr_detector.specs.Runs.{AreSendersOf, IsRunning, run_of, worker_queues};

use crate::error::StartError;
use crate::running::Running;
use crate::setup::{inlets_of, senders_of, workers_of};
use crate::stop::{Stopped, close_all, join_workers};
use gr_model::config::Config;
use gr_model::memory::Memory;
use gr_model::shape::Shape;
use gr_sequencer_thread::begin::Begin;
use gr_sequencer_thread::thread::SequencerThread;
use gr_threads::sender::Sender;
use gr_threads::watch::Watch;
use gr_threads::worker::{Worker, WorkerEnd};
use gr_threads::worker_thread::WorkerThread;
use std::alloc::Allocator;
use std::sync::{Arc, Wait};
use std::thread::Threads;
use std::time::Clock;

/// The senders and the workers of a run, with room for the workers' threads and for what these leave.
#[derive(Drop)]
struct Crew<A: Allocator> {
    senders: Vec<Sender<A>, A>,
    workers: Vec<Worker<A>, A>,
    threads: Vec<WorkerThread<A>, A>,
    ends: Vec<WorkerEnd<A>, A>,
}

/// Makes all parts of a run, before any thread is started: what the sequencer's thread begins with, and the others.
fn set_up<A: Allocator + Copy>(
    alloc: A,
    shape: Shape<A>,
    config: Config,
) -> Result<(Begin<A>, Crew<A>), Memory>
    ensures begin { IfOk result (λ s. (s.0.config ≡ config) × (s.0.sizes ≡ shape)) }
    ensures senders { IfOk result (λ s. AreSendersOf (run_of s.0) s.1.senders.items) }
    ensures workers { IfOk result (λ s. worker_queues s.1.workers.items ≡ works_of s.0.givers) }
    ensures none { IfOk result (λ s. (s.1.threads.items ≡ []) × (s.1.ends.items ≡ [])) }
    ensures room { IfOk result (λ s. (vec_len s.1.workers ≤ vec_capacity s.1.threads) × (vec_len s.1.workers ≤ vec_capacity s.1.ends)) }
{
    let mut inlets = inlets_of(alloc, config)?;
    let senders = senders_of(alloc, config, &shape, &mut inlets)?;
    let (outlets, workers) = workers_of(alloc, config)?;
    let threads = Vec::with_capacity(alloc, workers.len())?;
    let ends = Vec::with_capacity(alloc, workers.len())?;
    let begin = Begin::new(config, shape, inlets, outlets);
    let crew = Crew {
        senders,
        workers,
        threads,
        ends,
    };
    Ok((begin, crew))
}

/// Starts the threads of all workers, in order. If one can't be started, returns the threads before it.
fn start_all<
    R: Threads + Wait + Clock + Copy + Send + 'static,
    A: Allocator + Copy + Send + Sync + Drop + 'static,
    W: Watch + Send + Sync + Drop + 'static,
>(
    rt: R,
    alloc: A,
    workers: Vec<Worker<A>, A>,
    threads: Vec<WorkerThread<A>, A>,
    watch: &Arc<W, A>,
) -> Result<Vec<WorkerThread<A>, A>, Vec<WorkerThread<A>, A>>
    requires none { threads.items ≡ [] }
    requires room { vec_len workers ≤ vec_capacity threads }
    ensures all { IfOk result (λ v. v.items ≡ workers.items) }
    ensures first { IfErr result (λ v. v.items ≡ take (vec_len v) workers.items) }
    ensures fewer { IfErr result (λ v. vec_len v < vec_len workers) }
{
    let mut threads = threads;
    for worker in workers {
        match start_one(rt, alloc, worker, watch) {
            Some(thread) => threads.push_reserved(thread),
            None => return Err(threads),
        }
    }
    Ok(threads)
}

/// Starts the thread of a worker.
fn start_one<
    R: Threads + Wait + Clock + Copy + Send + 'static,
    A: Allocator + Copy + Send + Sync + Drop + 'static,
    W: Watch + Send + Sync + Drop + 'static,
>(rt: R, alloc: A, worker: Worker<A>, watch: &Arc<W, A>) -> Option<WorkerThread<A>>
    ensures { IfSome result (λ t. t ≡ worker) }
{
    let watch = Arc::try_clone(watch).ok()?;
    WorkerThread::start(rt, alloc, worker, watch)
}

/// Starts the threads of all workers, after that of the sequencer, and gives the senders with the run. If one can't be started, the run is
/// stopped. Returns then what the threads leave: that of the sequencer and those of the workers before it.
fn start_workers<
    R: Threads + Wait + Clock + Copy + Send + 'static,
    A: Allocator + Copy + Send + Sync + Drop + 'static,
    W: Watch + Send + Sync + Drop + 'static,
>(
    rt: R,
    alloc: A,
    groups: u16,
    sequencer: SequencerThread<A>,
    crew: Crew<A>,
    watch: &Arc<W, A>,
) -> Result<(Vec<Sender<A>, A>, Running<A>), Stopped<A>>
    requires groups { groups ≡ length sequencer.sizes }
    requires workers { IsRunning sequencer crew.workers.items }
    requires none { (crew.threads.items ≡ []) × (crew.ends.items ≡ []) }
    requires room { (vec_len crew.workers ≤ vec_capacity crew.threads) × (vec_len crew.workers ≤ vec_capacity crew.ends) }
    ensures senders { IfOk result (λ started. started.0.items ≡ crew.senders.items) }
    ensures run { IfOk result (λ started. started.1 ≡ run_of sequencer) }
    ensures sequencer_ended { IfErr result (λ s. end_line s.sequencer ≡ begin_line sequencer) }
    ensures workers_ended { IfErr result (λ s. worker_queues s.workers.items ≡ worker_queues (take (vec_len s.workers) crew.workers.items)) }
{
    let Crew {
        senders,
        workers,
        threads,
        ends,
    } = crew;
    match start_all(rt, alloc, workers, threads, watch) {
        Ok(threads) => Ok((
            senders,
            Running {
                alloc,
                groups,
                sequencer,
                workers: threads,
            },
        )),
        Err(threads) => {
            close_all(&rt, senders);
            let sequencer = sequencer.join(&rt);
            let workers = join_workers(&rt, threads, ends);
            Err(Stopped { sequencer, workers })
        }
    }
}

/// Starts a run of a launch of this shape: a thread for the sequencer, and one for each worker. Gives a sender for each
/// work-group, in order. Each has sent nothing and may send a stream of any length. All threads share `watch`.
///
/// # Errors
/// `Memory`, or `Threads` if a thread could not be started, for any cause. All threads of the run have then ended.
///
/// # Example
/// ```rust
/// let shape = Shape::new(vec![in alloc; 1, 1]?).ok().ok_or("shape")?;
/// let config = Config::new(2, 1, 1024).ok().ok_or("configuration")?;
/// let (senders, running) = start(rt, alloc, shape, config, Arc::new(alloc, NoWatch)?).ok().ok_or("a run")?;
/// // Each sender goes to a thread, which sends its group's records, closes it and gives its receipt back.
/// let report = running.finish(&rt, receipts).ok().ok_or("a report")?;
/// ```
pub fn start<
    R: Threads + Wait + Clock + Copy + Send + 'static,
    A: Allocator + Copy + Send + Sync + Drop + 'static,
    W: Watch + Send + Sync + Drop + 'static,
>(
    rt: R,
    alloc: A,
    shape: Shape<A>,
    config: Config,
    watch: Arc<W, A>,
) -> Result<(Vec<Sender<A>, A>, Running<A>), StartError>
    ensures run { IfOk result (λ started. (started.1.config ≡ config) × (started.1.sizes ≡ shape)) }
    ensures senders { IfOk result (λ started. AreSendersOf started.1 started.0.items) }
{
    let groups = shape.groups();
    let Ok((begin, crew)) = set_up(alloc, shape, config) else {
        return Err(StartError::Memory);
    };
    let Ok(theirs) = Arc::try_clone(&watch) else {
        return Err(StartError::Memory);
    };
    let Some(sequencer) = SequencerThread::start(rt, alloc, begin, theirs) else {
        return Err(StartError::Threads);
    };
    let Ok(started) = start_workers(rt, alloc, groups, sequencer, crew, &watch) else {
        return Err(StartError::Threads);
    };
    Ok(started)
}
