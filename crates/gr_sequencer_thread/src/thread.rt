//! The sequencer's thread, from its start to its join.

ghost use Rattle.std.specs.Prelude.{◌≡◌, [], All, IfOk, IfSome};
ghost use Rattle.gr_sequencer_thread.specs.Ends.{begin_line, end_line, feed_line};
ghost use Rattle.gr_order.specs.Sequences.{nothing};
ghost use Rattle.gr_sequencer_thread.specs.Feeds.{AreNoBacklogs, intakes_of};

use crate::backlog::{Backlog, backlogs_of};
use crate::begin::Begin;
use crate::end::SequencerEnd;
use crate::feed::{Feed, show};
use crate::inlet::Inlet;
use crate::on_way::OnWay;
use crate::outlet::stop_all;
use gr_model::event::Event;
use gr_model::memory::Memory;
use gr_model::shape::Shape;
use gr_route::batch::Batch;
use gr_sequencer::sequencer::Sequencer;
use gr_threads::idle::Idle;
use gr_threads::watch::Watch;
use std::alloc::{Allocator, Global};
use std::marker::Model;
use std::snapshot::Snapshot;
use std::sync::{Arc, Wait};
use std::thread;
use std::thread::{Promise, PromisedHandle, Threads};
use std::time::Clock;

/// Takes the events of all intake queues, handles them, and passes their accesses to the workers, until the end of every
/// group was taken and nothing is left to do. Then it pushes `Stop` to the workers. If memory runs out, it goes on popping,
/// and takes nothing more.
fn run<R: Wait + Clock, A: Allocator + Copy, W: Watch>(
    rt: &R,
    alloc: A,
    feed: Feed<A>,
    watch: &Arc<W, A>,
) -> SequencerEnd<A>
    ensures { end_line result ≡ feed_line feed }
{
    let mut feed = feed;
    let idle = Idle::new();
    // How often the thread has waited since an event came.
    let mut waits: usize = 0;
    for _ in rt.forever() {
        let popped = feed.drain_all(rt, watch);
        if popped {
            waits = 0;
        }
        let taken = feed.take_turns(rt, waits);
        let passed = feed.pass(rt, waits > 0);
        if popped || taken || passed {
            idle.reset();
            continue;
        }
        if feed.is_over() {
            return feed.stop(rt, alloc);
        }
        idle.wait(rt);
        waits = waits.saturating_add(1);
    }
    unreachable!()
}

/// Pops a batch of some intake queue, if there is one.
fn pop_any<R: Wait, A: Allocator>(
    rt: &R,
    inlets: &mut Vec<Inlet<A>, A>,
) -> Option<(u16, Batch<Event, A>)>
    ensures { intakes_of inlets.new.items ≡ intakes_of inlets.old.items }
{
    for queue in 0..inlets.len() {
        if let Some(sent) = inlets[queue].pop(rt) {
            return Some(sent);
        }
    }
    None
}

/// Pops the events of so many groups until all their ends were popped. It is for a thread without memory from the start.
fn pop_all<R: Wait + Clock, A: Allocator, W: Watch>(
    rt: &R,
    inlets: &mut Vec<Inlet<A>, A>,
    groups: u16,
    watch: &Arc<W, A>,
)
    ensures { intakes_of inlets.new.items ≡ intakes_of inlets.old.items }
{
    let mut open = groups;
    let idle = Idle::new();
    for _ in rt.forever() {
        if open == 0 {
            return;
        }
        match pop_any(rt, inlets) {
            None => idle.wait(rt),
            Some((group, events)) => {
                idle.reset();
                show(watch, group, events.len());
                open = open.saturating_sub(u16::from(events.last().kind.is_end()));
            }
        }
    }
    unreachable!()
}

/// What the thread works with, for a launch of this shape, before any event has come.
fn fresh<A: Allocator + Copy>(
    alloc: A,
    shape: &Shape<A>,
) -> Result<(Sequencer<A>, Vec<Backlog<A>, A>, OnWay<A>), Memory>
    ensures sequencer { IfOk result (λ f. f.0 ≡ nothing shape.now) }
    ensures backlogs { IfOk result (λ f. AreNoBacklogs shape.now f.1.items) }
    ensures on_way { IfOk result (λ f. All (λ l. l ≡ []) f.2) }
{
    let sequencer = Sequencer::new(alloc, shape.copy()?)?;
    Ok((sequencer, backlogs_of(alloc, shape)?, OnWay::new(alloc)?))
}

/// The whole of the thread.
fn sequence<R: Wait + Clock, A: Allocator + Copy, W: Watch>(
    rt: &R,
    alloc: A,
    begin: Begin<A>,
    watch: &Arc<W, A>,
) -> SequencerEnd<A>
    ensures { end_line result ≡ begin_line begin }
{
    let Begin {
        config,
        shape,
        mut inlets,
        mut outlets,
    } = begin;
    match fresh(alloc, &shape) {
        Ok((sequencer, backlogs, on_way)) => {
            let feed = Feed::new(config, shape, sequencer, backlogs, inlets, outlets, on_way);
            run(rt, alloc, feed, watch)
        }
        Err(Memory) => {
            // For the proof: the numbers of the configuration are in range.
            let _ = config.queues();
            pop_all(rt, &mut inlets, shape.groups(), watch);
            stop_all(rt, &mut outlets);
            SequencerEnd {
                config,
                shape,
                inlets,
                outlets,
                report: None,
            }
        }
    }
}

/// What the sequencer's thread promises of its end: its seats are still of the same queues.
#[derive(Drop)]
struct OfSequencer<A: Allocator = Global>(Snapshot<Begin<A>>);

impl<A: Allocator> Promise<SequencerEnd<A>> for OfSequencer<A> {
    ghost use Rattle.std.specs.Prelude.{◌≡◌};
    ghost use Rattle.gr_sequencer_thread.specs.Ends.{begin_line, end_line};

    ghost kept_by = { λ p r. end_line r ≡ begin_line p.0.value };
}

/// The sequencer's thread that was started. Contracts see what it began with.
#[derive(Drop)]
pub struct SequencerThread<A: Allocator = Global> {
    handle: PromisedHandle<SequencerEnd<A>, OfSequencer<A>>,
}

impl<A: Allocator> Model for SequencerThread<A> {
    ghost use Rattle.gr_sequencer_thread.specs.Ends as spec;

    ghost Value = { spec.Begin A };

    ghost view = { λ t. t.handle.promise.0.value };
}

impl<A: Allocator + Copy + Send + Sync + Drop + 'static> SequencerThread<A> {
    /// Starts the thread, or gives `None` if it can't be started.
    pub fn start<
        R: Threads + Wait + Clock + Copy + Send + 'static,
        W: Watch + Send + Sync + Drop + 'static,
    >(rt: R, alloc: A, begin: Begin<A>, watch: Arc<W, A>) -> Option<SequencerThread<A>>
        ensures { IfSome result (λ t. t ≡ begin) }
    {
        let promise = OfSequencer(Snapshot::of(&begin));
        let work = move || sequence(&rt, alloc, begin, &watch);
        match thread::spawn_with(&rt, promise, work) {
            Ok(handle) => Some(SequencerThread { handle }),
            Err(_) => None,
        }
    }
}

impl<A: Allocator> SequencerThread<A> {
    /// Waits until the thread has ended.
    pub fn join<R: Threads>(self, rt: &R) -> SequencerEnd<A>
        ensures { end_line result ≡ begin_line self }
    {
        self.handle.join(rt)
    }
}
