//! What the work-items know of the handled events: their clocks, and the snapshot of each handled release.

ghost use Rattle.std.specs.Prelude.{◌≡◌, ◌≢◌, ◌<◌, ◌++◌, ◌∷◌, [], Some, IfOk, OnErr, OnOk, IsTrue, length};
ghost use Rattle.gr_model.specs.Access as model;
ghost use Rattle.gr_model.specs.Prelude.{HasItem, IsConvergent, Mark, event_at, word_at, Sees};
ghost use Rattle.gr_steps.specs.Steps.{HasMet};
ghost use Rattle.gr_clocks.specs.ItemClocks.{AddsGroup, IsGroupSpent, MeetsClocks, clock_in};
ghost use Rattle.gr_closure.specs.Accesses.{CountsJust, IsAccessOf};
ghost use Rattle.gr_lanes.specs.Takes.{nothing_taken, with_record};
ghost use Rattle.gr_sequencer.specs.Known.{CountWhatIsKnown, KnowsOrLearns, IsKnown, IsSnapshotBy, IsNext, IsNextAtOnce, snapshot_at};

use crate::sources::sources_of;
use gr_clocks::access::Access;
use gr_clocks::clock::{Clock, ClockError};
use gr_clocks::clocks::{Clocks, memory_of};
use gr_clocks::snapshot::Snapshot;
use gr_lanes::instance::barrier;
use gr_model::access::release_scope;
use gr_model::class::class_of;
use gr_model::event::{Event, EventId, ItemId, Kind, Space, Word, word_of};
use gr_model::memory::Memory;
use gr_model::shape::Shape;
use gr_order::schedule::Schedule;
use indexmap::IndexMap;
use std::alloc::{Allocator, Global};
use std::hash::{BuildHasherDefault, FoldHasher};
use std::marker::Model;

/// The snapshots of releases, by the event.
pub(crate) type Snapshots<A> = IndexMap<EventId, Snapshot<A>, BuildHasherDefault<FoldHasher>, A>;

/// What the work-items know of the handled events: their clocks, and the snapshot of each handled release.
#[derive(Drop)]
#[derive_where(Debug)]
pub(crate) struct Known<A: Allocator = Global> {
    clocks: Clocks<A>,
    snapshots: Snapshots<A>,
}

impl<A: Allocator> Model for Known<A> {
    ghost use Rattle.gr_sequencer.specs.Known as spec;

    ghost Value = { spec.Known };

    ghost view = { λ k. record { clocks = k.clocks; snapshots = k.snapshots.entries } };
}

impl<A: Allocator + Copy> Known<A> {
    /// What is known before a group has come.
    pub(crate) fn without_groups(alloc: A) -> Known<A>
        ensures { IsKnown (nothing_taken []) [] result }
    {
        Known {
            clocks: Clocks::without_groups(alloc),
            snapshots: IndexMap::new(alloc),
        }
    }

    /// What is known before an event was handled.
    pub(crate) fn new(alloc: A, shape: &Shape<A>) -> Result<Known<A>, Memory>
        ensures { IfOk result (IsKnown (nothing_taken shape.now) []) }
    {
        let clocks = match Clocks::new(alloc, shape) {
            Ok(clocks) => clocks,
            Err(_) => return Err(Memory),
        };
        Ok(Known {
            clocks,
            snapshots: IndexMap::new(alloc),
        })
    }
}

impl<A: Allocator + Clone> Known<A> {
    /// What is known after one more group came with this many items, which know nothing.
    ///
    /// # Errors
    /// `Memory`: out of memory.
    pub(crate) fn with_group(self, alloc: A, group: u16, items: u16) -> Result<Known<A>, Memory>
        ensures clocks { IfOk result (λ k. AddsGroup self.clocks group items k.clocks) }
        ensures snapshots { IfOk result (λ k. k.snapshots ≡ self.snapshots) }
    {
        let Known { clocks, snapshots } = self;
        match clocks.with_group(alloc, group, items) {
            Ok(clocks) => Ok(Known { clocks, snapshots }),
            Err(_) => Err(Memory),
        }
    }
}

/// Whether the barriers of a convergent instance flag the global memory, and the local memory. None of them was handled.
fn flags_of<A: Allocator>(order: &Schedule<A>, group: u16, instance: u32) -> (bool, bool)
    requires convergent { (a : Mark) × IsConvergent order.now.taken group instance a }
    requires fresh { ¬ HasMet order.now.taken order.now.handled group instance }
    ensures { (a : Mark) → IsConvergent order.now.taken group instance a → (result.0 ≡ a.global) × (result.1 ≡ a.local) }
{
    match barrier(order.lanes(), ItemId { group, item: 0 }, instance) {
        None => unreachable!(),
        Some(barrier) => match barrier.kind {
            Kind::Barrier { global, local } => (global, local),
            _ => unreachable!(),
        },
    }
}

impl<A: Allocator> Known<A> {
    /// The clock of an item in a memory.
    pub(crate) fn item_clock(&self, item: ItemId, space: Space) -> &Clock<A>
        requires { HasItem self.now.clocks.sizes item }
        ensures { result.now.counts ≡ clock_in self.now.clocks space item }
    {
        self.clocks.clock_of(item, space)
    }
}

impl<A: Allocator + Clone> Known<A> {
    /// The clock of an event that may be handled next, in its word's memory and before its own tick: what its item knows, joined
    /// with the event's sources.
    fn known_or_learned(
        &self,
        order: &Schedule<A>,
        event: EventId,
        taken: &Event,
        word: Word,
    ) -> Result<Clock<A>, Memory>
        requires next { IsNext order.now.taken order.now.handled self.now event }
        requires there { event_at order.now.taken event ≡ Some taken.now }
        requires word { word_at order.now.taken event ≡ Some word }
        ensures { IfOk result (λ c. CountsJust c.counts (KnowsOrLearns order.now.taken order.now.handled (model.memory_of word) event)) }
    {
        let clock = self.clocks.clock_of(event.at, memory_of(word));
        match sources_of(order, &self.snapshots, event, taken) {
            None => match clock.copy() {
                Ok(copied) => Ok(copied),
                Err(_) => Err(Memory),
            },
            Some(sources) => match clock.learned(sources.as_slice()) {
                Ok(learned) => Ok(learned),
                Err(_) => Err(Memory),
            },
        }
    }

    /// The clock of an access that may be handled next, in its word's memory.
    fn clock_of(
        &self,
        order: &Schedule<A>,
        event: EventId,
        taken: &Event,
        word: Word,
    ) -> Result<Clock<A>, Memory>
        requires next { IsNext order.now.taken order.now.handled self.now event }
        requires there { event_at order.now.taken event ≡ Some taken.now }
        requires word { word_at order.now.taken event ≡ Some word }
        ensures { IfOk result (λ c. CountsJust c.counts (Sees order.now.taken (model.memory_of word) event)) }
    {
        let mut clock = self.known_or_learned(order, event, taken, word)?;
        match clock.tick(event.at) {
            Ok(()) => Ok(clock),
            Err(error) => match error {
                ClockError::Memory => Err(Memory),
                ClockError::Spent => unreachable!(),
            },
        }
    }

    /// The access of an event that may be handled next, or `None` where the event is no access.
    ///
    /// # Errors
    /// `Memory`: out of memory.
    pub(crate) fn access_of(
        &self,
        order: &Schedule<A>,
        event: EventId,
        taken: &Event,
    ) -> Result<Option<Access<A>>, Memory>
        requires next { IsNext order.now.taken order.now.handled self.now event }
        requires there { event_at order.now.taken event ≡ Some taken.now }
        ensures { IfOk result (λ access. IsAccessOf order.now.taken event access) }
    {
        let (Some(word), Some(class)) = (word_of(event.at.group, taken), class_of(&taken.kind))
        else {
            return Ok(None);
        };
        let clock = self.clock_of(order, event, taken, word)?;
        Ok(Some(Access {
            word,
            item: event.at,
            index: event.index,
            class,
            clock,
        }))
    }

    /// Keeps a snapshot of an event, if it is a release.
    ///
    /// # Errors
    /// `Memory`: out of memory. What is known is then as before.
    pub(crate) fn keep(
        &mut self,
        order: &Schedule<A>,
        event: EventId,
        taken: &Event,
        access: &Option<Access<A>>,
    ) -> Result<(), Memory>
        requires there { event_at order.now.taken event ≡ Some taken.now }
        requires access { IsAccessOf order.now.taken event access.now }
        ensures clocks { self.new.clocks ≡ self.old.clocks }
        ensures kept { OnOk result (IsTrue (model.is_release taken.now) → IsSnapshotBy order.now.taken event (snapshot_at self.new.snapshots event)) }
        ensures others { (r : EventId) → r ≢ event → snapshot_at self.new.snapshots r ≡ snapshot_at self.old.snapshots r }
    {
        match (release_scope(&taken.kind), access) {
            (Some(scope), Some(access)) => {
                let clock = match access.clock.copy() {
                    Ok(clock) => clock,
                    Err(_) => return Err(Memory),
                };
                let snapshot = Snapshot::new(access.word, scope, clock);
                self.snapshots.insert(event, snapshot)?;
                Ok(())
            }
            _ => Ok(()),
        }
    }

    /// Gives an event's item the clocks that it has after the event, which may be handled next.
    ///
    /// # Errors
    /// `Memory`: out of memory. What is known is then as before.
    pub(crate) fn advance(
        &mut self,
        order: &Schedule<A>,
        event: EventId,
        taken: &Event,
    ) -> Result<(), Memory>
        requires next { IsNext order.now.taken order.now.handled self.old event }
        requires there { event_at order.now.taken event ≡ Some taken.now }
        ensures snapshots { self.new.snapshots ≡ self.old.snapshots }
        ensures clocks { OnOk result (CountWhatIsKnown order.now.taken (order.now.handled ++ event ∷ []) self.new.clocks) }
        ensures err { OnErr result (self.new.clocks ≡ self.old.clocks) }
    {
        let answer = match sources_of(order, &self.snapshots, event, taken) {
            None => self.clocks.access(event.at),
            Some(sources) => self.clocks.acquire(event.at, sources.as_slice()),
        };
        match answer {
            Ok(()) => Ok(()),
            Err(error) => match error {
                ClockError::Memory => Err(Memory),
                ClockError::Spent => unreachable!(),
            },
        }
    }

    /// Gives an event's item the clocks that it has after the event, a mere access, as soon as its record is taken. It takes no memory.
    #[inline(always)]
    pub(crate) fn handle_at_once(
        &mut self,
        order: &Schedule<A>,
        group: u16,
        event: EventId,
        taken: &Event,
    )
        requires { IsNextAtOnce order.now group taken.now self.old event }
        ensures snapshots { self.new.snapshots ≡ self.old.snapshots }
        ensures clocks { CountWhatIsKnown (with_record order.now.taken group taken.now) (order.now.handled ++ event ∷ []) self.new.clocks }
    {
        match self.clocks.access(event.at) {
            Ok(()) => {}
            Err(_) => unreachable!(),
        }
    }

    /// Gives the items of a group the clocks that they have after the barriers of a convergent instance. None of these barriers was
    /// handled, and no clock of the group is at its limit.
    ///
    /// # Errors
    /// `Memory`: out of memory. What is known is then as before.
    pub(crate) fn meet(
        &mut self,
        order: &Schedule<A>,
        group: u16,
        instance: u32,
    ) -> Result<(), Memory>
        requires shape { self.old.clocks.sizes ≡ order.now.taken.sizes }
        requires group { group < length order.now.taken.sizes }
        requires free { ¬ IsGroupSpent self.old.clocks group }
        requires convergent { (a : Mark) × IsConvergent order.now.taken group instance a }
        requires fresh { ¬ HasMet order.now.taken order.now.handled group instance }
        ensures meets { OnOk result ((a : Mark) → IsConvergent order.now.taken group instance a → MeetsClocks self.old.clocks group a.global a.local self.new.clocks) }
        ensures snapshots { self.new.snapshots ≡ self.old.snapshots }
        ensures err { OnErr result (self.new.clocks ≡ self.old.clocks) }
    {
        let (global, local) = flags_of(order, group, instance);
        match self.clocks.meet_within(group, global, local) {
            Ok(()) => Ok(()),
            Err(_) => Err(Memory),
        }
    }
}
