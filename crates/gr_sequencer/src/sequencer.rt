//! The sequencer.
//!
//! Invariant: each item's clock counts exactly what the item knows along the order of the handled events, and each handled release
//! has a snapshot that counts exactly what is seen at it.

ghost use Rattle.std.specs.Prelude.{[], ◌≡◌, ◌↔◌, ◌+◌, ◌<◌, ℕ, IsTrue, IfOk, IfErr, IfNone, IfSome, OnOk, OnErr, MatchOption, Some, length};
ghost use Rattle.gr_model.specs.declared.limits.TheConstants.{MOST_RECORDS};
ghost use Rattle.gr_model.specs.Prelude.{CanAdd, AreComplete, HasItem, event_at, list_of, Lists, DivergenceBelow, IsDivergence, IsCut, IsHeld};
ghost use Rattle.gr_model.specs.Prelude.{IsUnmatchedEntry, UnmatchedBelow};
ghost use Rattle.gr_lanes.specs.Takes.{CanTake, IsEventButItem, IsTakeFault, next_of, with_record};
ghost use Rattle.gr_steps.specs.Steps.{CanMeet, IsAtRest, IsReady};
ghost use Rattle.gr_order.specs.Sequences.{CanStep, HandlesEvent, IsDone, IsSequence, event_count, nothing, taking, with_group};
ghost use Rattle.gr_order.specs.Answers.{IsHandleFault, IsMeetFault};
ghost use Rattle.gr_order.specs.AtOnce.{GoesAtOnce};
ghost use Rattle.gr_closure.specs.Accesses.{CountsJust};
ghost use Rattle.gr_closure.specs.Knowledge.{Knows};
ghost use Rattle.gr_sequencer.specs.Answers.{IsOfGroup, IsOfItem, IsStep};

use crate::handled::Handled;
use crate::known::Known;
use gr_agenda::agenda::Agenda;
use gr_clocks::clock::Clock;
use gr_lanes::seq_error::SeqError;
use gr_model::event::{Event, EventId, ItemId, Space};
use gr_model::growing::GrowingShape;
use gr_model::memory::Memory;
use gr_model::report::{Divergence, Unmatched};
use gr_model::shape::Shape;
use gr_order::go_error::GoError;
use gr_order::schedule::Schedule;
use gr_order::steps::Ready;
use gr_order::{acquires, groups, instances};
use std::alloc::{Allocator, Global};
use std::marker::Model;

/// Takes the records of a launch and handles its events. Contracts see the records that it took, and the events that it handled, in
/// their order.
#[derive(Drop)]
#[derive_where(Debug)]
pub struct Sequencer<A: Allocator = Global> {
    #[derive_where(skip)]
    alloc: A,
    agenda: Agenda<A>,
    known: Known<A>,
}

impl<A: Allocator> Model for Sequencer<A> {
    ghost use Rattle.gr_order.specs.Sequences.{Sequence};
    ghost use Rattle.gr_sequencer.specs.Known.{IsKnown};

    ghost Value = { Sequence };

    ghost view = { λ s. s.agenda };

    ghost invariant = { λ s. IsKnown s.agenda.taken s.agenda.handled s.known };
}

impl<A: Allocator + Copy> Sequencer<A> {
    /// A sequencer of a launch of this shape, before its first record.
    ///
    /// # Errors
    /// `Memory`: out of memory.
    pub fn new(alloc: A, shape: Shape<A>) -> Result<Sequencer<A>, Memory>
        ensures { IfOk result (λ s. s ≡ nothing shape) }
    {
        let known = Known::new(alloc, &shape)?;
        let agenda = Agenda::new(alloc, shape)?;
        Ok(Sequencer {
            alloc,
            agenda,
            known,
        })
    }

    /// A sequencer of a launch of which no group has come. Groups come one after another, by `with_group`.
    ///
    /// # Errors
    /// `Memory`: out of memory.
    pub fn without_groups(alloc: A) -> Result<Sequencer<A>, Memory>
        ensures { IfOk result (λ s. s ≡ nothing []) }
    {
        let known = Known::without_groups(alloc);
        let agenda = Agenda::without_groups(alloc)?;
        Ok(Sequencer {
            alloc,
            agenda,
            known,
        })
    }

    /// The sequencer with one more group, which has this many items: the shape of a launch need not be known before its first
    /// records are taken. Groups below it that were not there come too, without items.
    /// Requires: the group has not come, and a launch may have it together with the others.
    ///
    /// # Errors
    /// `Memory`: out of memory.
    pub fn with_group(self, group: u16, items: u16) -> Result<Sequencer<A>, Memory>
        requires { CanAdd self.taken group items }
        ensures { IfOk result (λ s. s ≡ with_group self group items) }
    {
        let Sequencer {
            alloc,
            agenda,
            known,
        } = self;
        // brings the order's invariant into the proof
        let _order = agenda.order();
        let known = known.with_group(alloc, group, items)?;
        let agenda = agenda.with_group(alloc, group, items)?;
        Ok(Sequencer {
            alloc,
            agenda,
            known,
        })
    }

    /// The divergent instances with their causes, by group and then by instance.
    ///
    /// # Errors
    /// `Memory`: out of memory.
    pub fn divergences(&self) -> Result<Vec<Divergence, A>, Memory>
        ensures { IfOk result (λ v. Lists DivergenceBelow (IsDivergence self.now.taken) v.items) }
    {
        instances::divergences(self.alloc, self.agenda.order().lanes())
    }

    /// The groups whose streams were cut, ascending.
    ///
    /// # Errors
    /// `Memory`: out of memory.
    pub fn cut(&self) -> Result<Vec<u16, A>, Memory>
        ensures { IfOk result (λ v. Lists (λ (g h : ℕ). g < h) (IsCut self.now.taken) v.items) }
    {
        groups::cut(self.alloc, self.agenda.order().lanes())
    }

    /// The unmatched acquires with their causes, by item and then by index. The sequencer is at its end.
    ///
    /// # Errors
    /// `Memory`: out of memory.
    pub fn unmatched(&self) -> Result<Vec<Unmatched, A>, Memory>
        requires rest { IsAtRest self.now.taken self.now.handled }
        ensures { IfOk result (λ v. Lists UnmatchedBelow (IsUnmatchedEntry self.now.taken) v.items) }
    {
        let order = self.agenda.order();
        acquires::unmatched(self.alloc, order.lanes(), order.frontier(), order.windows())
    }

    /// Takes the next record of a group. It is a record that some group may have, whatever its item.
    ///
    /// # Errors
    /// The first of `UnknownGroup`, `AfterEnd` with the group, `UnknownItem` and `Memory` that is there. Nothing is then
    /// taken.
    #[inline(always)]
    pub fn take(&mut self, group: u16, event: Event) -> Result<(), SeqError>
        requires good { IsEventButItem event }
        requires room { length (list_of self.old.taken group) < MOST_RECORDS }
        ensures ok { OnOk result (CanTake self.old.taken group event × (self.new ≡ taking self.old group event)) }
        ensures err { IfErr result (λ e. IsTakeFault self.old.taken group event e) }
        ensures unchanged { OnErr result (self.new ≡ self.old) }
        ensures sequence { IsSequence self.new }
    {
        // brings the order's invariant into the proof
        let _taken = self.agenda.order();
        self.agenda.take(group, event)
    }

    /// Takes the next record of a group as `take` does. If the record is a mere access, which releases nothing and names nothing, and no
    /// event of its item waits, then it handles the event too, and gives it: its clock is then that of its item (`clock_of`). Else the
    /// event waits, as after `take`.
    ///
    /// # Errors
    /// The first of `UnknownGroup`, `AfterEnd` with the group, `UnknownItem` and `Memory` that is there. Nothing is then
    /// taken or handled.
    #[inline(always)]
    pub fn take_and_handle(&mut self, group: u16, event: Event) -> Result<Option<EventId>, SeqError>
        requires good { IsEventButItem event }
        requires room { length (list_of self.old.taken group) < MOST_RECORDS }
        ensures can { OnOk result (CanTake self.old.taken group event) }
        ensures waits { IfOk result (λ o. IfNone o ((¬ GoesAtOnce self.old group event) × (self.new ≡ taking self.old group event))) }
        ensures goes { IfOk result (λ o. IfSome o (λ e. GoesAtOnce self.old group event × HandlesEvent (taking self.old group event) e self.new)) }
        ensures event { IfOk result (λ o. IfSome o (λ e. event_at self.new.taken e ≡ Some event)) }
        ensures item { IfOk result (λ o. IfSome o (λ e. e.at ≡ record { group = group; item = event.item })) }
        ensures err { IfErr result (λ e. IsTakeFault self.old.taken group event e) }
        ensures unchanged { OnErr result (self.new ≡ self.old) }
        ensures sequence { IsSequence self.new }
    {
        let Some(next) = self.agenda.order().at_once(group, &event) else {
            self.take(group, event)?;
            return Ok(None);
        };
        self.handle_at_once(group, event, next);
        Ok(Some(next))
    }
}

impl<A: Allocator + Clone> Sequencer<A> {
    /// Takes the next record of a group and handles its event, which may be handled at once. It takes no memory.
    #[inline(always)]
    fn handle_at_once(&mut self, group: u16, event: Event, next: EventId)
        requires good { IsEventButItem event }
        requires room { length (list_of self.old.taken group) < MOST_RECORDS }
        requires goes { GoesAtOnce self.old group event }
        requires next { next ≡ next_of self.old.taken group event }
        requires ready { IsReady (with_record self.old.taken group event) self.old.handled next }
        ensures handles { HandlesEvent (taking self.old group event) next self.new }
        ensures event { event_at self.new.taken next ≡ Some event }
        ensures sequence { IsSequence self.new }
    {
        let order = self.agenda.order();
        self.known.handle_at_once(order, group, next, &event);
        self.agenda.take_at_once(group, event);
    }

    /// Handles an event that may be handled.
    ///
    /// # Errors
    /// `Memory`: out of memory. Nothing is then handled.
    fn handle_event(&mut self, event: EventId) -> Result<Handled<A>, Memory>
        requires ready { IsReady self.old.taken self.old.handled event }
        ensures step { IfOk result (λ h. IsStep self.old self.new h) }
        ensures item { IfOk result (λ h. IsOfItem event.at h) }
        ensures unchanged { OnErr result (self.new ≡ self.old) }
        ensures sequence { IsSequence self.new }
    {
        let order = self.agenda.order();
        let taken = order.event_at(event).unwrap();
        let access = self.known.access_of(order, event, &taken)?;
        self.known.keep(order, event, &taken, &access)?;
        self.known.advance(order, event, &taken)?;
        self.agenda.handle_event(event);
        Ok(Handled::One { event, access })
    }

    /// Handles an item's next event, if all that it waits for was handled and it is no barrier of a convergent or waiting instance.
    ///
    /// # Errors
    /// `NotReady`, and else `Memory`. Nothing is then handled.
    pub fn handle(&mut self, item: ItemId) -> Result<Handled<A>, GoError>
        ensures step { IfOk result (λ h. IsStep self.old self.new h) }
        ensures item { IfOk result (λ h. IsOfItem item h) }
        ensures err { IfErr result (λ e. IsHandleFault self.old item e) }
        ensures unchanged { OnErr result (self.new ≡ self.old) }
        ensures sequence { IsSequence self.new }
    {
        let event = self.agenda.order().next(item).ok_or(GoError::NotReady)?;
        Ok(self.handle_event(event)?)
    }

    /// Handles the barriers of a group's instance that may meet.
    ///
    /// # Errors
    /// `Memory`: out of memory. Nothing is then handled.
    fn meet_next(&mut self, group: u16) -> Result<Handled<A>, Memory>
        requires meets { CanMeet self.old.taken self.old.handled group }
        ensures step { IfOk result (λ h. IsStep self.old self.new h) }
        ensures group { IfOk result (λ h. IsOfGroup group h) }
        ensures unchanged { OnErr result (self.new ≡ self.old) }
        ensures sequence { IsSequence self.new }
    {
        let order = self.agenda.order();
        let instance = order.next_meeting(group);
        self.known.meet(order, group, instance)?;
        self.agenda.meet_instance(group);
        Ok(Handled::Meet { group, instance })
    }

    /// Handles the barriers of a group's first convergent instance that was not handled, if the event before each of them was.
    ///
    /// # Errors
    /// `NotReady`, and else `Memory`. Nothing is then handled.
    pub fn meet(&mut self, group: u16) -> Result<Handled<A>, GoError>
        ensures step { IfOk result (λ h. IsStep self.old self.new h) }
        ensures group { IfOk result (λ h. IsOfGroup group h) }
        ensures err { IfErr result (λ e. IsMeetFault self.old group e) }
        ensures unchanged { OnErr result (self.new ≡ self.old) }
        ensures sequence { IsSequence self.new }
    {
        if self.agenda.order().meeting(group).is_none() {
            return Err(GoError::NotReady);
        }
        Ok(self.meet_next(group)?)
    }

    /// Makes any one step that is ready, or none where none is: the handled events are then the grounded ones.
    ///
    /// # Errors
    /// `Memory`, where some step is ready. Nothing is then handled.
    pub fn step(&mut self) -> Result<Option<Handled<A>>, Memory>
        ensures some { IfOk result (λ o. MatchOption o (self.new ≡ self.old) (λ h. IsStep self.old self.new h)) }
        ensures none { IfOk result (λ o. MatchOption o (IsDone self.old) (λ h. CanStep self.old)) }
        ensures err { OnErr result (CanStep self.old) }
        ensures unchanged { OnErr result (self.new ≡ self.old) }
        ensures sequence { IsSequence self.new }
    {
        let handled = match self.agenda.ready() {
            None => return Ok(None),
            Some(Ready::Item(item)) => {
                let event = self.agenda.order().ready_event(item);
                self.handle_event(event)?
            }
            Some(Ready::Group(group)) => self.meet_next(group)?,
        };
        Ok(Some(handled))
    }
}

impl<A: Allocator> Sequencer<A> {
    /// What was taken of the launch's streams, and the order in which its events were handled.
    pub fn order(&self) -> &Schedule<A>
        ensures order { result.now ≡ self.now }
        ensures sequence { IsSequence self.now }
    {
        self.agenda.order()
    }

    /// The clock of an item in a memory: it counts just what the item knows.
    #[inline(always)]
    pub fn clock_of(&self, item: ItemId, space: Space) -> &Clock<A>
        requires { HasItem self.now.taken.sizes item }
        ensures { CountsJust result.now.counts (Knows self.now.taken space self.now.handled item) }
    {
        self.known.item_clock(item, space)
    }

    /// The sizes of the groups that have come.
    pub fn shape(&self) -> &GrowingShape<A>
        ensures sizes { result.now ≡ self.now.taken.sizes }
        ensures sequence { IsSequence self.now }
    {
        self.agenda.order().lanes().shape()
    }

    /// How many records of a group were taken; 0 where there is no such group.
    pub fn taken(&self, group: u16) -> u32
        ensures { result ≡ length (list_of self.now.taken group) }
    {
        self.agenda.order().taken(group)
    }

    /// Whether every group's end was taken and no step is left. The handled events are then the grounded ones.
    pub fn at_end(&self) -> bool
        ensures ended { IsTrue result ↔ (AreComplete self.now.taken × IsAtRest self.now.taken self.now.handled) }
        ensures done { IsTrue result → IsDone self.now }
        ensures sequence { IsSequence self.now }
    {
        self.agenda.order().is_at_end()
    }

    /// Once a group has ended, frees what is no longer needed of it. Says whether it has ended: its end was taken, and no event of
    /// its items waits.
    pub fn close(&mut self, group: u16) -> bool
        ensures { self.new ≡ self.old }
    {
        self.agenda.close(group)
    }

    /// How many events were taken and not handled. Where no step is left, these are the events that are not grounded.
    pub fn held(&self) -> u64
        ensures count { result + length self.now.handled ≡ event_count self.now.taken }
        ensures held { IsAtRest self.now.taken self.now.handled → IsHeld self.now.taken result }
    {
        self.agenda.order().held()
    }
}
