//! The state of the sequencer's thread, and its steps.
//!
//! Invariant, unless memory ran out: of each group, what was taken, followed by what is still to be taken, is what was popped. The
//! handled order is lawful. For each worker, what it was given, followed by what is on its way to it, are its accesses along that
//! order. If memory ran out, events are popped and dropped.

ghost use Rattle.std.specs.Prelude.{◌≡◌, ◌<◌, [], All, false, IsTrue, length};
ghost use Rattle.gr_order.specs.Sequences.{nothing};
ghost use Rattle.gr_sequencer_thread.specs.Ends.{end_line, feed_line};
ghost use Rattle.gr_sequencer_thread.specs.Feeds.{AreNoBacklogs, IsFresh, IsOver, intakes_of, works_of};

use crate::backlog::{Backlog, are_empty, note};
use crate::end::{SequencerEnd, findings};
use crate::inlet::Inlet;
use crate::on_way::{OnWay, Passing};
use crate::outlet::{Outlet, stop_all};
use gr_model::config::Config;
use gr_model::limits::FEW_GROUPS;
use gr_model::memory::Memory;
use gr_model::shape::Shape;
use gr_sequencer::sequencer::Sequencer;
use gr_taking::rounds::take_round;
use gr_threads::watch::Watch;
use std::alloc::{Allocator, Global};
use std::marker::Model;
use std::snapshot::Snapshot;
use std::sync::{Arc, Wait};
use std::time::Clock;

/// How many events are popped of a queue before the next queue is tried; the last batch is popped whole.
const BURST: u32 = 4096;

/// The turns of so many groups take about as long as a wait.
const GROUPS_FOR_A_WAIT: usize = 1024;

/// If turns let no event go, the next ones come after the queues were looked at so often: a group that waits for others should not take its
/// later events yet. An idle thread looks so often in half a millisecond.
const PATIENCE: usize = 16;

/// If so many accesses are on their way, no more events are handled.
const MOST_ON_WAY: usize = 4096;

/// The state of the sequencer's thread. Contracts see the configuration, the items of each work-group, what was taken and handled,
/// the seats of all queues, the events that are still to be taken, the accesses on their way, and whether memory ran out.
#[derive(Drop)]
pub struct Feed<A: Allocator = Global> {
    config: Config,
    shape: Shape<A>,
    sequencer: Sequencer<A>,
    inlets: Vec<Inlet<A>, A>,
    outlets: Vec<Outlet<A>, A>,
    backlogs: Vec<Backlog<A>, A>,
    on_way: OnWay<A>,
    // For how many groups the end was not popped yet.
    open: u16,
    failed: bool,
    // How many events were left when the groups last had their turns, and how many were popped since.
    left: usize,
    fresh: usize,
    // Whether these turns let no event go: each group that has events waits for others; and how often the queues were looked at since.
    is_stuck: bool,
    looks: usize,
}

impl<A: Allocator> Model for Feed<A> {
    ghost use Rattle.gr_sequencer_thread.specs.Feeds as spec;

    ghost Value = { spec.Feed A };

    ghost view = { λ f. record { config = f.config; sizes = f.shape; sequence = f.sequencer; takers = f.inlets.items; givers = f.outlets.items; coming = f.backlogs.items; on_way = f.on_way; failed = f.failed } };

    ghost invariant = { λ f. spec.IsFeed {A = A} (record { config = f.config; sizes = f.shape; sequence = f.sequencer; takers = f.inlets.items; givers = f.outlets.items; coming = f.backlogs.items; on_way = f.on_way; failed = f.failed }) };
}

/// Looks at what is left of each group: notes how far its sender is ahead, and gives back the lists whose events were taken. Gives
/// how many events are left in all.
fn look_at<R: Wait, A: Allocator>(
    rt: &R,
    backlogs: &mut Vec<Backlog<A>, A>,
    inlets: &Vec<Inlet<A>, A>,
) -> usize
    requires { 0 < length inlets.now.items }
    ensures { backlogs.new.items ≡ backlogs.old.items }
{
    // With more groups, not all streams are read at once. A group may then wait for a stream that is not begun: its sender must go on.
    let are_side_by_side = backlogs.len() <= FEW_GROUPS;
    let mut left: usize = 0;
    for group in 0..backlogs.len() {
        let backlog = &mut backlogs[group];
        let inlet = &inlets[group % inlets.len()];
        left = left.saturating_add(backlog.len());
        if are_side_by_side {
            inlet.queue.leads.note(group, backlog.len());
        }
        backlog.give_back(rt, inlet);
    }
    left
}

/// How many events were popped and not handled, of which so many are still to be taken.
fn waiting_of<A: Allocator>(sequencer: &Sequencer<A>, coming: usize) -> u64 {
    sequencer.held().saturating_add(coming as u64)
}

/// Shows a watcher that so many events of a group were popped.
pub(crate) fn show<W: Watch, A: Allocator>(watch: &Arc<W, A>, group: u16, count: usize) {
    for _ in 0..count {
        watch.at_take(group);
    }
}

impl<A: Allocator> Feed<A> {
    /// The state at the start: the shape of the launch, a sequencer that has taken nothing of it, backlogs without events, and the
    /// ends of all intake queues and of all workers' queues, in order.
    pub fn new(
        config: Config,
        shape: Shape<A>,
        sequencer: Sequencer<A>,
        backlogs: Vec<Backlog<A>, A>,
        inlets: Vec<Inlet<A>, A>,
        outlets: Vec<Outlet<A>, A>,
        on_way: OnWay<A>,
    ) -> Feed<A>
        requires sequencer { sequencer ≡ nothing shape }
        requires backlogs { AreNoBacklogs shape backlogs.items }
        requires fresh { IsFresh config shape inlets.items outlets.items }
        requires on_way { All (λ l. l ≡ []) on_way }
        ensures { feed_line result ≡ record { config = config; sizes = shape; intakes = intakes_of inlets.items; works = works_of outlets.items } }
    {
        // For the proof: the sequencer's handled order is lawful, and the numbers of the configuration are in range.
        let _ = (sequencer.at_end(), config.queues());
        let open = shape.groups();
        Feed {
            config,
            shape,
            sequencer,
            inlets,
            outlets,
            backlogs,
            on_way,
            open,
            failed: false,
            left: 0,
            fresh: 0,
            is_stuck: false,
            looks: 0,
        }
    }

    /// Whether every group's end was popped, and, unless memory ran out, all was taken, handled and passed on.
    pub(crate) fn is_over(&self) -> bool
        ensures { IsTrue result → self.now.failed ≡ false → IsOver self.now }
    {
        self.open == 0
            && (self.failed
                || (self.on_way.is_empty() && are_empty(&self.backlogs) && self.sequencer.at_end()))
    }

    /// Whether the groups are to take turns now: no more events come, or at least as many came since the last turns as there are groups, and
    /// as half of those that were left, or none came while the thread waited so often.
    fn are_turns_due(&self, waits: usize) -> bool {
        let enough = (self.left / 2).max(self.backlogs.len());
        let has_waited = if self.is_stuck {
            self.looks > PATIENCE
        } else {
            waits > self.backlogs.len() / GROUPS_FOR_A_WAIT
        };
        self.open == 0 || self.fresh >= enough || has_waited
    }
}

impl<A: Allocator + Copy> Feed<A> {
    /// Pops a batch of an intake queue. Gives how many events it has: 0 if there is no batch.
    fn pop<R: Wait, W: Watch>(&mut self, rt: &R, queue: usize, watch: &Arc<W, A>) -> usize
        requires { queue < length self.old.takers }
        ensures { feed_line self.new ≡ feed_line self.old }
    {
        let Some((group, events)) = self.inlets[queue].pop(rt) else {
            return 0;
        };
        let count = events.len();
        self.open = self
            .open
            .saturating_sub(u16::from(events.last().kind.is_end()));
        self.fresh = self.fresh.saturating_add(count);
        self.failed = note(&mut self.backlogs, self.failed, group, events);
        show(watch, group, count);
        count
    }

    /// Pops events of an intake queue, up to a burst. Gives whether there was one.
    fn drain<R: Wait, W: Watch>(&mut self, rt: &R, queue: usize, watch: &Arc<W, A>) -> bool
        requires { queue < length self.old.takers }
        ensures { feed_line self.new ≡ feed_line self.old }
    {
        let mut count: usize = 0;
        for _ in 0..BURST {
            let popped = self.pop(rt, queue, watch);
            count = count.saturating_add(popped);
            if popped == 0 || count >= BURST as usize {
                break;
            }
        }
        count > 0
    }

    /// Pops events of each intake queue. Gives whether there was one.
    pub(crate) fn drain_all<R: Wait, W: Watch>(&mut self, rt: &R, watch: &Arc<W, A>) -> bool
        ensures { feed_line self.new ≡ feed_line self.old }
    {
        let mut some = false;
        self.looks = self.looks.saturating_add(1);
        for queue in 0..self.inlets.len() {
            some |= self.drain(rt, queue, watch);
        }
        some
    }

    /// Lets each group take its turn if turns are due, where the thread has waited so often since an event came, and not too many accesses
    /// are on their way. Gives whether an event was taken.
    pub(crate) fn take_turns<R: Wait>(&mut self, rt: &R, waits: usize) -> bool
        ensures { feed_line self.new ≡ feed_line self.old }
    {
        if self.failed || !self.are_turns_due(waits) || self.on_way.len() >= MOST_ON_WAY {
            return false;
        }
        let coming = self.left.saturating_add(self.fresh);
        let waiting = waiting_of(&self.sequencer, coming);
        let passing = Passing {
            config: self.config,
            outlets: Snapshot::of(&self.outlets),
        };
        match take_round(
            &mut self.sequencer,
            &passing,
            &mut self.on_way,
            self.backlogs.as_mut_slice(),
        ) {
            Ok(took) => {
                let left = look_at(rt, &mut self.backlogs, &self.inlets);
                self.left = left;
                self.fresh = 0;
                self.looks = 0;
                self.is_stuck = waiting_of(&self.sequencer, left) >= waiting;
                took
            }
            Err(Memory) => {
                self.failed = true;
                false
            }
        }
    }

    /// Passes the accesses on, as `OnWay::pass` does.
    pub(crate) fn pass<R: Wait>(&mut self, rt: &R, all: bool) -> bool
        ensures { feed_line self.new ≡ feed_line self.old }
    {
        self.on_way.pass(rt, self.config, &mut self.outlets, all)
    }

    /// Pushes `Stop` to each worker. This ends the thread.
    pub(crate) fn stop<R: Wait + Clock>(self, rt: &R, alloc: A) -> SequencerEnd<A>
        requires { self.failed ≡ false → IsOver self }
        ensures { end_line result ≡ feed_line self }
    {
        let Feed {
            config,
            shape,
            sequencer,
            inlets,
            mut outlets,
            backlogs: _,
            on_way: _,
            open: _,
            failed,
            left: _,
            fresh: _,
            is_stuck: _,
            looks: _,
        } = self;
        stop_all(rt, &mut outlets);
        let report = findings(alloc, &sequencer, failed);
        SequencerEnd {
            config,
            shape,
            inlets,
            outlets,
            report,
        }
    }
}
