//! The world.
//!
//! Invariant: the order of the handled events is lawful. Of each group, the records that were taken, followed by those in its
//! queue, are the records that were sent. Of each worker, the accesses that it received, followed by those in its queue and by
//! the one on its way to it, are all accesses of the handled events that go to this worker.

ghost use Rattle.std.specs.Prelude.{◌≡◌, ◌≢◌, ◌↔◌, ◌<◌, ◌+◌, IsTrue, IsFalse, IfOk, IfErr, OnOk, OnErr, length, replicate};
ghost use Rattle.gr_model.specs.Prelude.{IsEventOk, is_end, IsReportOf, Lists, WordBelow, list_of, size_of};
ghost use Rattle.gr_steps.specs.Steps.{AreGrounded};
ghost use Rattle.gr_report.specs.Whole.{whole_of};
ghost use Rattle.gr_world.specs.declared.step.Step.TheVariants as steps;
ghost use Rattle.gr_world.specs.Putting.{IsPutFault, Queues};
ghost use Rattle.gr_world.specs.Queues.{empty_queue, no_work};
ghost use Rattle.gr_world.specs.Steps.{IsBadEvent, IsStepRefusal, IsWorldStep, Runs};
ghost use Rattle.gr_world.specs.Worlds.{AreEmpty, AreIdle, IsHitAtWork, IsWorld, IsWorldAtRest, new_world};

use crate::queue::Queue;
use crate::step::{Step, StepError};
use crate::worker::Worker;
use gr_clocks::access::Access;
use gr_lanes::lanes::Lanes;
use gr_lanes::seq_error::SeqError;
use gr_model::config::{Config, queue_of, worker_of};
use gr_model::event::{Event, ItemId, Sent, Word, event_ok};
use gr_model::limits::MOST_RECORDS;
use gr_model::memory::Memory;
use gr_model::shape::Shape;
use gr_report::report::Report;
use gr_sequencer::handled::Handled;
use gr_sequencer::sequencer::Sequencer;
use gr_shadow::merge::merge;
use gr_taking::reports::report_with;
use std::alloc::{Allocator, Global};
use std::marker::Model;

/// The world of a run. Contracts see what was sent, the intake queues, what was taken and in which order it was handled, the
/// access on its way, and what each worker has.
#[derive(Drop)]
#[derive_where(Debug)]
pub struct World<A: Allocator = Global> {
    #[derive_where(skip)]
    alloc: A,
    config: Config,
    sent: Lanes<A>,
    intakes: Vec<Queue<Sent, A>, A>,
    sequencer: Sequencer<A>,
    in_flight: Option<Access<A>>,
    workers: Vec<Worker<A>, A>,
}

impl<A: Allocator> Model for World<A> {
    ghost use Rattle.gr_world.specs.Worlds.{IsWorld, World as WorldLists, world_of};

    ghost Value = { WorldLists };

    ghost view = { λ w. world_of w.config w.sent.streams w.intakes.items w.sequencer w.in_flight w.workers.items };

    ghost invariant = { λ w. IsWorld (world_of w.config w.sent.streams w.intakes.items w.sequencer w.in_flight w.workers.items) };
}

/// `count` empty queues, each with room for `places` records.
fn queues_of<A: Allocator + Copy>(
    alloc: A,
    count: u16,
    places: u32,
) -> Result<Vec<Queue<Sent, A>, A>, Memory>
    ensures { IfOk result (λ v. v.items ≡ replicate count (empty_queue places)) }
{
    let mut queues = Vec::new(alloc);
    for _ in 0..count {
        queues.push(Queue::new(alloc, places as usize)?)?;
    }
    Ok(queues)
}

/// `count` workers that received nothing, each with room in its queue for `places` accesses.
fn workers_of<A: Allocator + Copy>(
    alloc: A,
    count: u16,
    places: u32,
) -> Result<Vec<Worker<A>, A>, Memory>
    ensures { IfOk result (λ v. v.items ≡ replicate count (no_work places)) }
{
    let mut workers = Vec::new(alloc);
    for _ in 0..count {
        workers.push(Worker::new(alloc, places as usize)?)?;
    }
    Ok(workers)
}

impl<A: Allocator + Copy> World<A> {
    /// The world of a launch of this shape, before anything is sent.
    ///
    /// # Errors
    /// `Memory` if an allocation is refused.
    pub fn new(alloc: A, shape: Shape<A>, config: Config) -> Result<World<A>, Memory>
        ensures made { IfOk result (λ w. w ≡ new_world shape config) }
        ensures world { IfOk result (λ w. IsWorld w) }
    {
        // brings the shape's invariant into the proof
        let _groups = shape.groups();
        let intakes = queues_of(alloc, config.queues(), config.capacity())?;
        let workers = workers_of(alloc, config.workers(), config.capacity())?;
        let sent = Lanes::new(alloc, shape.copy()?)?;
        let sequencer = Sequencer::new(alloc, shape)?;
        Ok(World {
            alloc,
            config,
            sent,
            intakes,
            sequencer,
            in_flight: None,
            workers,
        })
    }

    /// Makes a step.
    ///
    /// # Errors
    /// The first cause of `StepError` that holds; the world is then unchanged. Only a step that is allowed can fail with
    /// `Memory`, and a `Pass` never does.
    pub fn step(&mut self, step: Step) -> Result<(), StepError>
        ensures step { OnOk result (IsWorldStep self.old step self.new) }
        ensures err { IfErr result (IsStepRefusal self.old step) }
        ensures pass { result ≡ Err StepError.Memory → step ≢ steps.Pass }
        ensures unchanged { OnErr result (self.new ≡ self.old) }
    {
        match step {
            Step::Send(group, event) => self.send(group, event),
            Step::Close(group, cut) => self.close(group, cut),
            Step::Take(queue) => self.take(queue),
            Step::Handle(item) => self.handle(item),
            Step::Meet(group) => self.meet(group),
            Step::Pass => self.pass(),
            Step::WorkTake(worker) => self.work_take(worker),
        }
    }

    /// All words that are hit in what some worker received, in ascending order, each once.
    fn races(&self) -> Result<Vec<Word, A>, Memory>
        ensures { IfOk result (λ words. Lists WordBelow (IsHitAtWork self.now.workers) words.items) }
    {
        let mut races = Vec::new(self.alloc);
        for worker in &self.workers {
            let more = worker.racy()?;
            races = merge(self.alloc, &races, &more)?;
        }
        Ok(races)
    }

    /// The report of what was sent.
    /// Requires: the world is at rest (`at_rest`).
    ///
    /// # Errors
    /// `Memory` if an allocation is refused.
    pub fn report(&self) -> Result<Report<A>, Memory>
        requires { IsWorldAtRest self.now }
        ensures { IfOk result (λ report. IsReportOf self.now.sent (whole_of report)) }
    {
        let races = self.races()?;
        let report = report_with(&self.sequencer, races)?;
        Ok(report)
    }

    /// Handles an item's next event. If the event has an access, it is then on its way.
    fn handle(&mut self, item: ItemId) -> Result<(), StepError>
        ensures step { OnOk result (IsWorldStep self.old (steps.Handle item) self.new) }
        ensures err { IfErr result (IsStepRefusal self.old (steps.Handle item)) }
        ensures unchanged { OnErr result (self.new ≡ self.old) }
    {
        if !self.sent.shape().has(item) {
            return Err(StepError::BadStep);
        }
        if self.in_flight.is_some() {
            return Err(StepError::Busy);
        }
        let Handled::One { event: _, access } = self.sequencer.handle(item)? else {
            unreachable!();
        };
        self.in_flight = access;
        Ok(())
    }

    /// Handles all barriers of a group's next convergent instance.
    fn meet(&mut self, group: u16) -> Result<(), StepError>
        ensures step { OnOk result (IsWorldStep self.old (steps.Meet group) self.new) }
        ensures err { IfErr result (IsStepRefusal self.old (steps.Meet group)) }
        ensures unchanged { OnErr result (self.new ≡ self.old) }
    {
        if group >= self.sent.shape().groups() {
            return Err(StepError::BadStep);
        }
        let _met = self.sequencer.meet(group)?;
        Ok(())
    }

    /// The worker receives the access at the front of its queue.
    fn work_take(&mut self, worker: u16) -> Result<(), StepError>
        ensures step { OnOk result (IsWorldStep self.old (steps.WorkTake worker) self.new) }
        ensures err { IfErr result (IsStepRefusal self.old (steps.WorkTake worker)) }
        ensures unchanged { OnErr result (self.new ≡ self.old) }
    {
        let Some(worker) = self.workers.get_mut(usize::from(worker)) else {
            return Err(StepError::BadStep);
        };
        if !worker.receive()? {
            return Err(StepError::Empty);
        }
        Ok(())
    }

    /// Tries the steps in order. Returns the number of refused steps.
    pub fn run(&mut self, steps: &[Step]) -> u64
        ensures { Runs self.old steps.now self.new result }
    {
        let mut refused: u64 = 0;
        for step in steps {
            match self.step(*step) {
                Ok(()) => {}
                Err(_) => refused += 1,
            }
        }
        refused
    }

    /// A group's sender sends an event.
    fn send(&mut self, group: u16, event: Event) -> Result<(), StepError>
        ensures step { OnOk result (IsWorldStep self.old (steps.Send group event) self.new) }
        ensures err { IfErr result (IsStepRefusal self.old (steps.Send group event)) }
        ensures unchanged { OnErr result (self.new ≡ self.old) }
    {
        if group >= self.sent.shape().groups() || self.is_bad(group, &event) {
            return Err(StepError::BadStep);
        }
        self.put(group, event)
    }

    /// A group's sender sends the end of its stream.
    fn close(&mut self, group: u16, cut: bool) -> Result<(), StepError>
        ensures step { OnOk result (IsWorldStep self.old (steps.Close group cut) self.new) }
        ensures err { IfErr result (IsStepRefusal self.old (steps.Close group cut)) }
        ensures unchanged { OnErr result (self.new ≡ self.old) }
    {
        if group >= self.sent.shape().groups() {
            return Err(StepError::BadStep);
        }
        self.put(group, Event::end(cut))
    }

    /// Adds a record to what the group sent, and to its queue.
    /// Requires: the group exists and may have the record. If the record is not an end, there is room for an end after it.
    fn put(&mut self, group: u16, event: Event) -> Result<(), StepError>
        requires group { group < length self.old.sent.sizes }
        requires good { IsEventOk event (size_of self.old.sent group) }
        requires room { IsFalse (is_end event) → length (list_of self.old.sent group) + 1 < MOST_RECORDS }
        ensures ok { OnOk result (Queues self.old group event self.new) }
        ensures err { IfErr result (IsPutFault self.old group) }
        ensures unchanged { OnErr result (self.new ≡ self.old) }
    {
        if self.sent.is_complete(group) {
            return Err(StepError::NotOpen);
        }
        let queue = usize::from(queue_of(group, self.config.queues()));
        if !self.intakes[queue].has_room() {
            return Err(StepError::Full);
        }
        self.sent.take_accepted(group, &event)?;
        self.intakes[queue].push(Sent { group, event });
        Ok(())
    }

    /// The sequencer takes the record at the front of an intake queue.
    fn take(&mut self, queue: u16) -> Result<(), StepError>
        ensures step { OnOk result (IsWorldStep self.old (steps.Take queue) self.new) }
        ensures err { IfErr result (IsStepRefusal self.old (steps.Take queue)) }
        ensures unchanged { OnErr result (self.new ≡ self.old) }
    {
        let Some(intake) = self.intakes.get_mut(usize::from(queue)) else {
            return Err(StepError::BadStep);
        };
        let Some(&Sent { group, event }) = intake.front() else {
            return Err(StepError::Empty);
        };
        match self.sequencer.take(group, event) {
            Ok(()) => {}
            Err(SeqError::Memory) => return Err(StepError::Memory),
            Err(_) => unreachable!(),
        }
        let _taken = intake.pop();
        Ok(())
    }
}

impl<A: Allocator> World<A> {
    /// Whether all intake queues are empty.
    fn is_drained(&self) -> bool
        ensures { IsTrue result ↔ AreEmpty self.now.intakes }
    {
        self.intakes.iter().all(|intake| intake.is_empty())
    }

    /// Whether the queues of all workers are empty.
    fn is_idle(&self) -> bool
        ensures { IsTrue result ↔ AreIdle self.now.workers }
    {
        for worker in &self.workers {
            if !worker.is_idle() {
                return false;
            }
        }
        true
    }

    /// Whether the world is at rest: all streams have ended, the queues are empty, no access is on its way, and the sequencer
    /// can make no step. The handled events are then exactly the grounded ones.
    pub fn at_rest(&self) -> bool
        ensures rest { IsTrue result ↔ IsWorldAtRest self.now }
        ensures done { IsTrue result → AreGrounded self.now.sent self.now.sequence.handled }
        ensures world { IsWorld self.now }
    {
        let on_its_way = self.in_flight.is_some();
        if on_its_way {
            return false;
        }
        if !self.is_drained() {
            return false;
        }
        if !self.is_idle() {
            return false;
        }
        self.sequencer.at_end()
    }

    /// Whether a group must not send this event: it is an end, is not allowed in the group, or leaves no room for the end.
    /// Requires: there is such a group.
    fn is_bad(&self, group: u16, event: &Event) -> bool
        requires { group < length self.now.sent.sizes }
        ensures { IsTrue result ↔ IsBadEvent self.now group event.now }
    {
        event.kind.is_end()
            || !event_ok(event, self.sent.shape().items(group))
            || self.sent.taken(group) as usize + 1 >= MOST_RECORDS
    }

    /// The access on its way goes to the queue of its word's worker. This allocates nothing.
    fn pass(&mut self) -> Result<(), StepError>
        ensures step { OnOk result (IsWorldStep self.old steps.Pass self.new) }
        ensures err { IfErr result (IsStepRefusal self.old steps.Pass) }
        ensures memory { result ≢ Err StepError.Memory }
        ensures unchanged { OnErr result (self.new ≡ self.old) }
    {
        let Some(access) = &self.in_flight else {
            return Err(StepError::Empty);
        };
        let number = worker_of(&access.word, self.config.workers());
        let worker = &mut self.workers[usize::from(number)];
        if !worker.has_room() {
            return Err(StepError::Full);
        }
        worker.push(self.in_flight.take().unwrap());
        Ok(())
    }
}
