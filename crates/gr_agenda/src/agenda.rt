//! An order of events with the list of the steps that may have become ready.
//!
//! Invariant: each step that can be made is in the list, unless memory was too short. Each item whose next event names releases
//! that were not handled is in the list, or waits for one of these releases. The instances noted as undiverged are not divergent.

ghost use Rattle.std.specs.Prelude.{[], ◌≡◌, ◌↔◌, ◌<◌, All, Contains, IfErr, IfOk, IfSome, IsSomeAnd, IsTrue, MatchOption};
ghost use Rattle.std.specs.Prelude.{OnErr, OnOk, Some, length, slice_get, ℕ};
ghost use Rattle.gr_model.specs.declared.event.EventId.{EventId as AnyEvent};
ghost use Rattle.gr_model.specs.declared.event.ItemId.{ItemId as AnyItem};
ghost use Rattle.gr_model.specs.declared.event.Name.{Name as AnyName};
ghost use Rattle.gr_model.specs.declared.limits.TheConstants.{MOST_RECORDS};
ghost use Rattle.gr_model.specs.Prelude.{CanAdd, release_place, list_of, size_of};
ghost use Rattle.gr_clocks.specs.Tables.{item_of};
ghost use Rattle.gr_order.specs.declared.steps.Ready.TheVariants.{Group, Item};
ghost use Rattle.gr_lanes.specs.Takes.{CanTake, IsEventButItem, IsTakeFault, next_of};
ghost use Rattle.gr_steps.specs.Steps.{CanHandle, CanMeet, IsReady};
ghost use Rattle.gr_order.specs.Answers.{CanMake};
ghost use Rattle.gr_order.specs.AtOnce.{GoesAtOnce};
ghost use Rattle.gr_order.specs.Sequences.{HandlesEvent, IsDone, IsSequence, MeetsNext, nothing, taking, with_group};
ghost use Rattle.gr_agenda.specs.Kept.{AreUndiverged, IsForgotten, IsHeldUp, IsNextBarrier, IsNoted, IsPending, IsReleaseHandled, IsTold};
ghost use Rattle.gr_agenda.specs.Lists.{Has, IsWaiting, KeepsSteps};

use crate::reach::{Reach, reach_of};
use crate::waiting::{LISTS, wait, wake};
use crate::worklist::Worklist;
use gr_lanes::instance::is_divergent;
use gr_lanes::kinds::is_barrier;
use gr_lanes::seq_error::SeqError;
use gr_model::event::{Event, EventId, ItemId, Name};
use gr_model::memory::Memory;
use gr_model::shape::Shape;
use gr_order::schedule::Schedule;
use gr_order::steps::Ready;
use std::alloc::{Allocator, Global};
use std::marker::Model;

/// An order of events with the list of the steps that may have become ready. Contracts see the lists and the order.
#[derive(Drop)]
#[derive_where(Debug)]
pub struct Agenda<A: Allocator = Global> {
    order: Schedule<A>,
    worklist: Worklist<A>,
    waiting: Vec<Vec<ItemId, A>, A>,
    /// For each group an instance that is known not to be divergent, if there is one.
    undiverged: Vec<Option<u32>, A>,
}

impl<A: Allocator> Model for Agenda<A> {
    ghost use Rattle.gr_order.specs.Sequences.{Sequence};
    ghost use Rattle.gr_agenda.specs.Kept.{AreUndiverged, IsKept};

    ghost Value = { Sequence };

    ghost view = { λ a. a.order };

    ghost invariant = { λ a. IsKept a.order a.worklist a.waiting.items × AreUndiverged a.order.taken a.undiverged.items };
}

/// The name of an event, if it is a release.
fn name_of<A: Allocator>(order: &Schedule<A>, event: EventId) -> Option<Name>
    ensures { (n : AnyName) → n.at ≡ event.at → release_place order.now.taken n ≡ Some event.index → result ≡ Some n }
{
    let release = order.lanes().release_number(event)?;
    let at = event.at;
    Some(Name { at, release })
}

/// The lists for the items that wait.
fn no_lists<A: Allocator + Copy>(alloc: A) -> Result<Vec<Vec<ItemId, A>, A>, Memory> {
    let mut lists = Vec::with_capacity(alloc, LISTS)?;
    for _ in 0..LISTS {
        lists.push(Vec::new(alloc))?;
    }
    Ok(lists)
}

/// The lists for the items that wait, made if there are none yet: before the first group no item waits.
///
/// # Errors
/// `Memory`: out of memory.
fn filled<A: Allocator + Copy>(
    alloc: A,
    lists: Vec<Vec<ItemId, A>, A>,
) -> Result<Vec<Vec<ItemId, A>, A>, Memory>
    ensures { IfOk result (λ v. (n : AnyName) (i : AnyItem) → IsWaiting lists.items n i → IsWaiting v.items n i) }
{
    if lists.is_empty() {
        return no_lists(alloc);
    }
    Ok(lists)
}

/// Puts an item's group on the list, if the item's next event is a barrier. It is one if an instance of the group may meet.
fn put_group<A: Allocator>(order: &Schedule<A>, worklist: &mut Worklist<A>, item: ItemId)
    ensures there { CanMeet order.now.taken order.now.handled item.group → item.item < size_of order.now.taken item.group
        → Has worklist.new (Group item.group) }
    ensures keeps { KeepsSteps worklist.old worklist.new }
{
    // brings the order's frontier into the proof
    let _frontier = order.frontier();
    if let Some(event) = order.waiting(item)
        && is_barrier(&event)
    {
        worklist.put(Ready::Group(item.group));
    }
}

/// Whether the release of a name was handled.
fn is_handled<A: Allocator>(order: &Schedule<A>, name: Name) -> bool
    ensures { IsTrue result ↔ IsReleaseHandled order.now.taken order.now.handled name }
{
    let frontier = order.frontier();
    match order.lanes().release_at(name) {
        None => false,
        Some(index) => frontier.covers(name.at, index),
    }
}

/// The first of an event's names whose release was not handled, if there is one.
fn first_unhandled<A: Allocator>(order: &Schedule<A>, event: &Event) -> Option<Name>
    ensures { MatchOption result (All (IsReleaseHandled order.now.taken order.now.handled) event.now.names)
        (λ n. Contains event.now.names n × ¬ IsReleaseHandled order.now.taken order.now.handled n) }
{
    let names = event.names.as_slice();
    for name in names {
        if !is_handled(order, *name) {
            return Some(*name);
        }
    }
    None
}

/// A name that holds up an item's next event, if there is one.
fn named_by<A: Allocator>(order: &Schedule<A>, item: ItemId) -> Option<Name>
    ensures { (d : AnyEvent) (n : AnyName) → IsHeldUp order.now.taken order.now.handled d n → d.at ≡ item
        → IsSomeAnd result (IsHeldUp order.now.taken order.now.handled d) }
{
    // brings the order's frontier into the proof
    let _frontier = order.frontier();
    let event = order.waiting(item)?;
    first_unhandled(order, &event)
}

/// Whether a step is of an item whose events were all handled. Then it can't be made, and nothing holds it up.
fn is_idle<A: Allocator>(order: &Schedule<A>, step: Ready) -> bool
    ensures none { IsTrue result → ¬ CanMake order.now step }
    ensures free { IsTrue result → (d : AnyEvent) (n : AnyName) → Item d.at ≡ step
        → ¬ IsHeldUp order.now.taken order.now.handled d n }
{
    // brings the order's frontier into the proof
    let _frontier = order.frontier();
    order.sequence_holds();
    match step {
        Ready::Group(_) => false,
        Ready::Item(item) => order.waiting(item).is_none(),
    }
}

/// Puts an item on the list, if one of its events waits.
fn put_if_pending<A: Allocator>(order: &Schedule<A>, worklist: &mut Worklist<A>, item: ItemId)
    ensures there { IsPending order.now item → Has worklist.new (Item item) }
    ensures keeps { KeepsSteps worklist.old worklist.new }
{
    let step = Ready::Item(item);
    if !is_idle(order, step) {
        worklist.put(step);
    }
}

/// Puts those of a group's first items on the list that have an event that waits.
fn put_pending<A: Allocator>(
    order: &Schedule<A>,
    worklist: &mut Worklist<A>,
    group: u16,
    items: u16,
)
    ensures there { (k : ℕ) → k < items → IsPending order.now (item_of group k) → Has worklist.new (Item (item_of group k)) }
    ensures keeps { KeepsSteps worklist.old worklist.new }
{
    for item in 0..items {
        put_if_pending(order, worklist, ItemId { group, item });
    }
}

/// Notes for which release an item waits, if its next event is not ready.
///
/// # Errors
/// `Memory`: out of memory.
fn note<A: Allocator>(
    order: &Schedule<A>,
    lists: &mut Vec<Vec<ItemId, A>, A>,
    step: Ready,
) -> Result<(), Memory>
    ensures noted { OnOk result ((d : AnyEvent) (n : AnyName) → IsHeldUp order.now.taken order.now.handled d n → Item d.at ≡ step
        → IsNoted order.now.taken order.now.handled lists.new.items d) }
    ensures keeps { (n : AnyName) (i : AnyItem) → IsWaiting lists.old.items n i → IsWaiting lists.new.items n i }
{
    match step {
        Ready::Group(_) => Ok(()),
        Ready::Item(item) => match named_by(order, item) {
            None => Ok(()),
            Some(named) => wait(lists, named, item),
        },
    }
}

/// Which of its barriers an item's next event is, if it is one.
fn next_barrier<A: Allocator>(order: &Schedule<A>, item: ItemId) -> Option<u32>
    ensures { IfSome result (λ k. IsNextBarrier order.now item k) }
{
    let frontier = order.frontier();
    let index = frontier.get(item);
    order.lanes().barrier_number(EventId { at: item, index })
}

/// Whether there is a number and it is this one.
fn is_number(told: Option<u32>, number: u32) -> bool
    ensures { IsTrue result → told ≡ Some number }
{
    told == Some(number)
}

/// Whether an item's next event is its barrier with this number.
fn is_next_barrier<A: Allocator>(order: &Schedule<A>, item: ItemId, number: u32) -> bool
    ensures { IsTrue result → IsNextBarrier order.now item number }
{
    let frontier = order.frontier();
    let lanes = order.lanes();
    if number < lanes.forgotten(item.group) {
        return false;
    }
    is_number(lanes.barrier_at(item, number), frontier.get(item))
}

/// The instance of a group that is known not to be divergent, if there is one.
fn undiverged_of(undiverged: &[Option<u32>], group: u16) -> Option<u32>
    ensures { IfSome result (λ k. slice_get undiverged.now group ≡ Some (Some k)) }
{
    *undiverged.get(usize::from(group))?
}

/// Notes that an instance of a group is not divergent.
fn tell_undiverged<A: Allocator>(undiverged: &mut Vec<Option<u32>, A>, group: u16, instance: u32)
    ensures { IsTold undiverged.old.items group instance undiverged.new.items }
{
    let place = usize::from(group);
    if place >= undiverged.len() {
        let _ = undiverged.resize(place + 1, None);
    }
    if place < undiverged.len() {
        undiverged[place] = Some(instance);
    }
}

/// Where a step can't be made and is of an item at a barrier: notes that the barrier's instance is not divergent.
fn mark_undiverged<A: Allocator>(
    order: &Schedule<A>,
    undiverged: &mut Vec<Option<u32>, A>,
    step: Ready,
)
    requires { ¬ CanMake order.now step }
    ensures { AreUndiverged order.now.taken undiverged.old.items → AreUndiverged order.now.taken undiverged.new.items }
{
    order.sequence_holds();
    if let Ready::Item(item) = step
        && let Some(instance) = next_barrier(order, item)
    {
        tell_undiverged(undiverged, item.group, instance);
    }
}

/// Forgets which instance of a group is known not to be divergent.
fn forget_undiverged<A: Allocator>(undiverged: &mut Vec<Option<u32>, A>, group: u16)
    ensures { IsForgotten undiverged.old.items group undiverged.new.items }
{
    let place = usize::from(group);
    if place < undiverged.len() {
        undiverged[place] = None;
    }
}

/// Puts on the list what may have become ready, where any item of a group may go on.
fn wake_group<A: Allocator>(
    order: &Schedule<A>,
    worklist: &mut Worklist<A>,
    undiverged: &mut Vec<Option<u32>, A>,
    group: u16,
)
    requires { group < length order.now.taken.sizes }
    ensures items { (k : ℕ) → k < size_of order.now.taken group → IsPending order.now (item_of group k)
        → Has worklist.new (Item (item_of group k)) }
    ensures group { Has worklist.new (Group group) }
    ensures keeps { KeepsSteps worklist.old worklist.new }
    ensures forgotten { IsForgotten undiverged.old.items group undiverged.new.items }
{
    forget_undiverged(undiverged, group);
    put_pending(order, worklist, group, order.lanes().shape().items(group));
    // last, so that it is looked at first: if the instance meets, its items need no look before
    worklist.put(Ready::Group(group));
}

impl<A: Allocator + Copy> Agenda<A> {
    /// The agenda of a launch of this shape, before its first record.
    ///
    /// # Errors
    /// `Memory`: out of memory.
    pub fn new(alloc: A, shape: Shape<A>) -> Result<Agenda<A>, Memory>
        ensures { IfOk result (λ a. a ≡ nothing shape) }
    {
        let order = Schedule::new(alloc, shape)?;
        let waiting = no_lists(alloc)?;
        Agenda::of_order(alloc, order, waiting)
    }

    /// The agenda of a launch of which no group has come.
    ///
    /// # Errors
    /// `Memory`: out of memory.
    pub fn without_groups(alloc: A) -> Result<Agenda<A>, Memory>
        ensures { IfOk result (λ a. a ≡ nothing []) }
    {
        let order = Schedule::without_groups(alloc)?;
        Agenda::of_order(alloc, order, Vec::new(alloc))
    }

    /// The agenda of an order from which nothing was taken, with lists for the items that wait.
    ///
    /// # Errors
    /// `Memory`: out of memory.
    fn of_order(
        alloc: A,
        order: Schedule<A>,
        waiting: Vec<Vec<ItemId, A>, A>,
    ) -> Result<Agenda<A>, Memory>
        requires { order ≡ nothing order.taken.sizes }
        ensures { IfOk result (λ a. a ≡ order) }
    {
        let worklist = Worklist::new(alloc);
        let undiverged = Vec::new(alloc);
        Ok(Agenda {
            order,
            worklist,
            waiting,
            undiverged,
        })
    }

    /// The agenda with one more group, which has this many items. Groups below it that were not there come too, without items.
    /// Requires: the group has not come, and a launch may have it together with the others.
    ///
    /// # Errors
    /// `Memory`: out of memory.
    pub fn with_group(self, alloc: A, group: u16, items: u16) -> Result<Agenda<A>, Memory>
        requires { CanAdd self.taken group items }
        ensures { IfOk result (λ a. a ≡ with_group self group items) }
    {
        let Agenda {
            order,
            worklist,
            waiting,
            undiverged,
        } = self;
        order.sequence_holds();
        let order = order.with_group(alloc, group, items)?;
        let lists = filled(alloc, waiting)?;
        Ok(Agenda {
            order,
            worklist,
            waiting: lists,
            undiverged,
        })
    }
}

impl<A: Allocator> Agenda<A> {
    /// What was taken of the launch's streams, and the order in which its events were handled.
    pub fn order(&self) -> &Schedule<A>
        ensures order { result.now ≡ self.now }
        ensures sequence { IsSequence self.now }
    {
        self.order.sequence_holds();
        &self.order
    }

    /// Once a group has ended, frees what is no longer needed of it. Says whether it has ended: its end was taken, and no event of
    /// its items waits.
    pub fn close(&mut self, group: u16) -> bool
        ensures { self.new ≡ self.old }
    {
        self.order.close(group)
    }

    /// Takes the next record of a group. It is a record that some group may have, whatever its item.
    ///
    /// # Errors
    /// The first of `UnknownGroup`, `AfterEnd` with the group, `UnknownItem` and `Memory` that is there. Nothing is then
    /// taken.
    #[inline(always)]
    pub fn take(&mut self, group: u16, event: Event) -> Result<(), SeqError>
    where
        A: Copy,
        requires good { IsEventButItem event }
        requires room { length (list_of self.old.taken group) < MOST_RECORDS }
        ensures ok { OnOk result (CanTake self.old.taken group event × (self.new ≡ taking self.old group event)) }
        ensures err { IfErr result (λ e. IsTakeFault self.old.taken group event e) }
        ensures unchanged { OnErr result (self.new ≡ self.old) }
        ensures sequence { IsSequence self.new }
    {
        let item = event.item;
        let at = ItemId { group, item };
        // brings the order's invariant into the proof
        let taken = self.order.lanes();
        let reach = reach_of(taken, group, &event);
        self.order.take(group, event)?;
        match reach {
            Reach::Item => self.worklist.put(Ready::Item(at)),
            Reach::Instance(instance) => {
                self.worklist.put(Ready::Group(group));
                if !is_number(undiverged_of(&self.undiverged, group), instance) {
                    self.worklist.put(Ready::Item(at));
                }
            }
            Reach::Mark(instance) if !is_divergent(self.order.lanes(), group, instance) => {
                tell_undiverged(&mut self.undiverged, group, instance);
                self.worklist.put(Ready::Group(group));
            }
            Reach::Mark(_) | Reach::Group => {
                wake_group(&self.order, &mut self.worklist, &mut self.undiverged, group);
            }
        }
        Ok(())
    }

    /// Takes the next record of a group and handles its event, which can be handled at once. No other step becomes ready by this. It
    /// takes no memory.
    pub fn take_at_once(&mut self, group: u16, event: Event)
        requires good { IsEventButItem event }
        requires room { length (list_of self.old.taken group) < MOST_RECORDS }
        requires goes { GoesAtOnce self.old group event }
        ensures step { HandlesEvent (taking self.old group event) (next_of self.old.taken group event) self.new }
        ensures sequence { IsSequence self.new }
    {
        self.order.sequence_holds();
        self.order.take_at_once(group, event);
    }

    /// Handles an event that may be handled.
    pub fn handle_event(&mut self, event: EventId)
        requires { IsReady self.old.taken self.old.handled event }
        ensures step { HandlesEvent self.old event self.new }
        ensures sequence { IsSequence self.new }
    {
        self.order.sequence_holds();
        let released = name_of(&self.order, event);
        self.order.handle_event(event);
        self.worklist.put(Ready::Item(event.at));
        put_group(&self.order, &mut self.worklist, event.at);
        match released {
            None => {}
            Some(name) => wake(&mut self.waiting, name, &mut self.worklist),
        }
    }

    /// Handles the barriers of a group's instance that may meet.
    pub fn meet_instance(&mut self, group: u16)
        requires { CanMeet self.old.taken self.old.handled group }
        ensures step { MeetsNext self.old group self.new }
        ensures sequence { IsSequence self.new }
    {
        self.order.sequence_holds();
        self.order.meet_instance(group);
        self.worklist.put(Ready::Group(group));
        let items = self.order.lanes().shape().items(group);
        put_pending(&self.order, &mut self.worklist, group, items);
    }

    /// Whether an item's next event is a barrier of an instance that is known not to be divergent.
    fn is_undiverged_at(&self, item: ItemId) -> bool
        ensures { IsTrue result → ¬ CanHandle self.now.taken self.now.handled item }
    {
        self.order.sequence_holds();
        match undiverged_of(&self.undiverged, item.group) {
            None => false,
            Some(instance) => is_next_barrier(&self.order, item, instance),
        }
    }

    /// Whether a step can be made.
    fn can_make(&self, step: Ready) -> bool
        ensures { IsTrue result ↔ CanMake self.now step }
    {
        match step {
            Ready::Item(item) => {
                self.order.is_free(item)
                    || (!self.is_undiverged_at(item) && self.order.next(item).is_some())
            }
            Ready::Group(group) => self.order.meeting(group).is_some(),
        }
    }

    /// Looks at the last step of the list. Gives it if it can be made. Else takes it off the list, and notes what its item waits
    /// for, if it waits.
    fn try_last(&mut self) -> Option<Ready>
        ensures found { IfSome result (λ r. CanMake self.old r) }
        ensures unchanged { self.new ≡ self.old }
    {
        let step = self.worklist.last()?;
        if is_idle(&self.order, step) {
            self.worklist.drop_last();
            return None;
        }
        if self.can_make(step) {
            return Some(step);
        }
        mark_undiverged(&self.order, &mut self.undiverged, step);
        match note(&self.order, &mut self.waiting, step) {
            Ok(()) => self.worklist.drop_last(),
            Err(_) => self.worklist.note_shortage(),
        }
        None
    }

    /// Any one step that is ready, or none where none is: the handled events are then the grounded ones.
    pub fn ready(&mut self) -> Option<Ready>
        ensures ready { MatchOption result (IsDone self.old) (λ r. CanMake self.old r) }
        ensures unchanged { self.new ≡ self.old }
        ensures sequence { IsSequence self.new }
    {
        self.order.sequence_holds();
        for _ in 0..self.worklist.len() {
            if let Some(step) = self.try_last() {
                return Some(step);
            }
        }
        if self.worklist.is_done() {
            return None;
        }
        self.order.ready()
    }
}
