//! Facts that follow from the contracts alone, and that a wrong body would break. Each returns whether it was reached.

ghost use Rattle.std.specs.Prelude.{IfOk, OnOk, length, map};
ghost use Rattle.gr_model.specs.Prelude.{HasItem};
ghost use Rattle.gr_lanes.specs.Remembered.{IsWhole};

use crate::calls::{is_lawful, shape_of, take};
use crate::rows::{ACQUIRE, BARRIER, END, GLOBAL, READ, RELEASE, Record, event_of};
use crate::trials::{Trial, holds_always};
use gr_agenda::agenda::Agenda;
use gr_lanes::instance::{barrier, has_mark_of, is_divergent};
use gr_lanes::lanes::Lanes;
use gr_lanes::seq_error::SeqError;
use gr_model::event::{Event, ItemId};
use gr_model::growing::GrowingShape;
use gr_model::memory::Memory;
use gr_model::report::{Divergence, DivergenceCause};
use gr_order::instances::cause;
use gr_order::schedule::Schedule;
use gr_order::steps::Ready;
use gr_sequencer::handled::Handled;
use gr_sequencer::sequencer::Sequencer;
use gr_windows::windows::Windows;
use refusing::Refusing;
use std::alloc::{Allocator, Global};

const FIRST: ItemId = ItemId { group: 0, item: 0 };

const SECOND: ItemId = ItemId { group: 0, item: 1 };

/// Records of the first group, on one word or site.
const READS: Record = (0, 0, READ, GLOBAL, 4, &[]);

const RELEASES: Record = (0, 0, RELEASE, GLOBAL, 4, &[]);

const ENDS: Record = (0, 0, END, GLOBAL, 0, &[]);

const COMES: Record = (0, 0, BARRIER, GLOBAL, 4, &[]);

const COMES_ELSEWHERE: Record = (0, 1, BARRIER, GLOBAL, 8, &[]);

/// Names the first two releases of the first item.
const ACQUIRES: Record = (0, 1, ACQUIRE, GLOBAL, 4, &[(0, 0, 0), (0, 0, 1)]);

/// Acquires of two groups, which wait for the first release of the first item.
const WAIT: [Record; 2] = [
    (1, 0, ACQUIRE, GLOBAL, 4, &[(0, 0, 0)]),
    (2, 0, ACQUIRE, GLOBAL, 4, &[(0, 0, 0)]),
];

/// The first event of an item goes, and so the second becomes its first.
fn pop_first_of_two<A: Allocator>(windows: &mut Windows<A>, item: ItemId) -> Option<()>
    requires { HasItem (map length windows.old) item }
{
    let second = windows.waiting(item, 1)?;
    windows.pop_first(item);
    let first = windows.waiting(item, 0)?;
    prove!(first.word == second.word);
    Some(())
}

/// No record is taken after the end of its group.
fn refusal_behind_the_end<A: Allocator>(lanes: &Lanes<A>, event: &Event) -> bool {
    if !lanes.is_complete(0) {
        return false;
    }
    prove!(lanes.refusal(0, event).is_some());
    true
}

/// One instance is forgotten.
fn forget_of_one<A: Allocator>(lanes: &mut Lanes<A>) -> bool
    requires { IsWhole lanes.old }
{
    if lanes.shape().groups() == 1
        && lanes.shape().items(0) == 1
        && barrier(lanes, FIRST, 0).is_some()
    {
        lanes.forget(0);
        prove!(lanes.forgotten(0) == 1);
        return true;
    }
    false
}

/// A divergent instance that is forgotten is kept.
fn decide_of_one<A: Allocator>(lanes: &mut Lanes<A>) -> bool
    requires { IsWhole lanes.old }
{
    let divergence = Divergence {
        group: 0,
        instance: 0,
        cause: DivergenceCause::Site,
    };
    if lanes.shape().groups() == 1
        && lanes.shape().items(0) == 1
        && barrier(lanes, FIRST, 0).is_some()
        && lanes.decide(divergence).is_ok()
    {
        prove!(lanes.decided(0).len() == 1);
        return true;
    }
    false
}

/// Two items that came with two marks make their instance divergent.
fn is_divergent_of_two_marks<A: Allocator>(lanes: &Lanes<A>) -> bool {
    if lanes.shape().groups() != 1 || lanes.shape().items(0) != 2 || lanes.forgotten(0) != 0 {
        return false;
    }
    if let Some(first) = barrier(lanes, FIRST, 0)
        && let Some(second) = barrier(lanes, SECOND, 0)
        && !has_mark_of(&first, &second)
    {
        prove!(is_divergent(lanes, 0, 0));
        return true;
    }
    false
}

/// No item is missing while the group goes on.
fn cause_while_the_group_goes_on<A: Allocator>(lanes: &Lanes<A>) -> bool {
    if lanes.shape().groups() == 0 || lanes.forgotten(0) != 0 || lanes.is_complete(0) {
        return false;
    }
    prove!(cause(lanes, 0, 0) != Some(DivergenceCause::Missing));
    true
}

/// An event is not handled before a release that it names, here the last.
fn next_behind_the_last_release<A: Allocator>(order: &Schedule<A>, item: ItemId) {
    if let Some(event) = order.next(item)
        && let Some(taken) = order.event_at(event)
        && let Some(name) = taken.names.as_slice().last()
        && let Some(index) = order.lanes().release_at(*name)
    {
        prove!(order.frontier().covers(name.at, index));
    }
}

/// The order is not at its end if a step is ready.
fn is_at_end_before_a_step<A: Allocator>(order: &Schedule<A>) -> bool {
    if let Some(Ready::Item(_)) = order.ready() {
        prove!(!order.is_at_end());
        return true;
    }
    false
}

/// If an instance meets, as many events are handled as the group has items.
fn meet_of_all<A: Allocator>(order: &mut Schedule<A>) -> bool {
    if order.lanes().shape().groups() == 0 {
        return false;
    }
    let items = order.lanes().shape().items(0);
    let before = order.held();
    if order.meet(0).is_err() {
        return false;
    }
    prove!(before.wrapping_sub(order.held()) == u64::from(items));
    true
}

/// What is ready for the order is ready for the agenda.
fn ready_of_both<A: Allocator>(agenda: &mut Agenda<A>) -> bool {
    if let Some(Ready::Item(_)) = agenda.order().ready() {
        prove!(agenda.ready().is_some());
        return true;
    }
    false
}

/// After an event is handled, what is ready for the order is ready for the agenda.
fn ready_after_the_next<A: Allocator>(agenda: &mut Agenda<A>) -> bool {
    let Some(Ready::Item(item)) = agenda.ready() else {
        return false;
    };
    let event = agenda.order().ready_event(item);
    agenda.handle_event(event);
    ready_of_both(agenda)
}

/// A group of which nothing was taken has not ended.
fn at_end_of_nothing<A: Allocator>(sequencer: &Sequencer<A>) -> bool {
    if sequencer.shape().groups() == 0 || sequencer.taken(0) != 0 {
        return false;
    }
    prove!(!sequencer.at_end());
    true
}

/// The clock of an access counts it.
fn step_of_an_access<A: Allocator + Copy>(sequencer: &mut Sequencer<A>) -> bool {
    if let Ok(Some(Handled::One { event, access })) = sequencer.step()
        && let Some(access) = access
    {
        prove!(access.clock.covers(event.at, event.index));
        return true;
    }
    false
}

#[test]
fn windows_forget_the_first(rt: HostRuntime) -> Result<(), Memory> {
    let shape = GrowingShape::of(shape_of(rt.alloc(), &[1])?);
    let mut windows = Windows::new(rt.alloc(), &shape)?;
    windows.push(FIRST, &event_of(&READS))?;
    windows.push(FIRST, &event_of(&COMES_ELSEWHERE))?;
    assert_eq!(rt; pop_first_of_two(&mut windows, FIRST), Some(()));
    Ok(())
}

/// Takes two records of the only group.
fn take_both<A: Allocator + Copy>(
    lanes: &mut Lanes<A>,
    first: &Record,
    second: &Record,
) -> Result<(), SeqError>
    requires { IsWhole lanes.old }
    ensures { OnOk result (IsWhole lanes.new) }
{
    let (first, second) = (event_of(first), event_of(second));
    if !is_lawful(&first) || !is_lawful(&second) || lanes.taken(0) != 0 {
        return Err(SeqError::Memory);
    }
    lanes.take(0, first)?;
    lanes.take(0, second)
}

/// Lanes of one group with this many items, of which two records were taken.
fn lanes_of(alloc: Global, items: u16, first: &Record, second: &Record) -> Result<Lanes, SeqError>
    ensures { IfOk result (λ l. IsWhole l) }
{
    let shape = shape_of(alloc, &[items])?;
    let mut lanes = Lanes::new(alloc, shape)?;
    take_both(&mut lanes, first, second)?;
    Ok(lanes)
}

#[test]
fn lanes_refuse_what_comes_behind_the_end(rt: HostRuntime) -> Result<(), SeqError> {
    let lanes = lanes_of(rt.alloc(), 1, &READS, &ENDS)?;
    assert!(rt; refusal_behind_the_end(&lanes, &event_of(&READS)));
    Ok(())
}

#[test]
fn lanes_forget_one_instance(rt: HostRuntime) -> Result<(), SeqError> {
    let mut lanes = lanes_of(rt.alloc(), 1, &COMES, &COMES)?;
    assert!(rt; forget_of_one(&mut lanes));
    Ok(())
}

#[test]
fn lanes_keep_a_divergence(rt: HostRuntime) -> Result<(), SeqError> {
    let mut lanes = lanes_of(rt.alloc(), 1, &COMES, &COMES)?;
    assert!(rt; decide_of_one(&mut lanes));
    Ok(())
}

#[test]
fn lanes_tell_two_marks(rt: HostRuntime) -> Result<(), SeqError> {
    let lanes = lanes_of(rt.alloc(), 2, &COMES, &COMES_ELSEWHERE)?;
    assert!(rt; is_divergent_of_two_marks(&lanes));
    Ok(())
}

#[test]
fn nobody_is_missing_while_a_group_goes_on(rt: HostRuntime) -> Result<(), SeqError> {
    let lanes = lanes_of(rt.alloc(), 3, &COMES, &COMES_ELSEWHERE)?;
    assert!(rt; cause_while_the_group_goes_on(&lanes));
    Ok(())
}

/// Takes a record into an order.
fn order_takes<A: Allocator + Copy>(order: &mut Schedule<A>, record: &Record) -> bool {
    let event = event_of(record);
    is_lawful(&event) && order.taken(record.0) < 16_777_216 && order.take(record.0, event).is_ok()
}

/// An order of one group with this many items that has taken these records.
fn order_of(alloc: Global, items: u16, records: &[Record]) -> Result<Schedule, Memory> {
    let shape = shape_of(alloc, &[items])?;
    let mut order = Schedule::new(alloc, shape)?;
    let are_taken = records.iter().all(|record| order_takes(&mut order, record));
    are_taken.then_some(order).ok_or(Memory)
}

/// Handles a release of the first item, while the acquire of the second waits for two.
fn waits_for_both<A: Allocator>(order: &mut Schedule<A>) -> bool {
    next_behind_the_last_release(order, SECOND);
    let is_handled = order.handle(FIRST).is_ok();
    next_behind_the_last_release(order, SECOND);
    is_handled
}

#[test]
fn an_order_waits_for_the_last_release(rt: HostRuntime) -> Result<(), Memory> {
    let mut order = order_of(rt.alloc(), 2, &[RELEASES, RELEASES, ACQUIRES])?;
    assert!(rt; waits_for_both(&mut order));
    Ok(())
}

#[test]
fn an_order_goes_on_while_a_step_is_ready(rt: HostRuntime) -> Result<(), Memory> {
    let order = order_of(rt.alloc(), 1, &[READS, ENDS])?;
    assert!(rt; is_at_end_before_a_step(&order));
    Ok(())
}

#[test]
fn all_of_a_group_meet(rt: HostRuntime) -> Result<(), Memory> {
    let mut order = order_of(rt.alloc(), 1, &[COMES])?;
    assert!(rt; meet_of_all(&mut order));
    Ok(())
}

/// Takes a record into an agenda.
fn agenda_takes<A: Allocator + Copy>(agenda: &mut Agenda<A>, record: &Record) -> bool {
    let event = event_of(record);
    is_lawful(&event)
        && agenda.order().taken(record.0) < 16_777_216
        && agenda.take(record.0, event).is_ok()
}

/// Whether an agenda finds the only step; `None` if there was no memory for the agenda.
fn finds_its_step<A: Allocator + Copy>(alloc: A) -> Option<bool> {
    let shape = shape_of(alloc, &[1]).ok()?;
    let mut agenda = Agenda::new(alloc, shape).ok()?;
    let is_taken = agenda_takes(&mut agenda, &READS);
    is_taken.then(|| ready_of_both(&mut agenda))
}

#[test]
fn an_agenda_finds_its_step_though_memory_is_short(rt: HostRuntime) {
    for at in 0..100_u64 {
        let heap = Refusing::new(rt.alloc(), at);
        let found = finds_its_step(&heap);
        assert!(rt; found != Some(false), "at {at}");
        assert!(rt; at < 99 || !heap.refused() && found.is_some());
    }
}

/// Two groups' acquires are taken, then the release that they name, and all three are handled.
fn wakes_both<A: Allocator + Copy>(agenda: &mut Agenda<A>) -> bool {
    WAIT.iter().all(|acquire| agenda_takes(agenda, acquire))
        && agenda.ready().is_none()
        && agenda_takes(agenda, &RELEASES)
        && ready_after_the_next(agenda)
        && ready_after_the_next(agenda)
        && !ready_after_the_next(agenda)
}

#[test]
fn a_release_wakes_all_that_wait(rt: HostRuntime) -> Result<(), Memory> {
    let shape = shape_of(rt.alloc(), &[1, 1, 1])?;
    let mut agenda = Agenda::new(rt.alloc(), shape)?;
    assert!(rt; wakes_both(&mut agenda));
    Ok(())
}

/// A sequencer that has taken nothing is not at its end.
struct AtEndOfNothing;

impl Trial for AtEndOfNothing {
    fn holds<A: Allocator + Copy>(&self, sequencer: &mut Sequencer<A>) -> bool {
        at_end_of_nothing(sequencer)
    }
}

#[test]
fn a_sequencer_is_not_at_its_end_before_its_groups(rt: HostRuntime) {
    assert!(rt; holds_always(rt.alloc(), &[1], &AtEndOfNothing));
}

/// The step of a release has a clock that counts it. If memory is short it is made at the second try.
struct StepOfRelease;

impl Trial for StepOfRelease {
    fn holds<A: Allocator + Copy>(&self, sequencer: &mut Sequencer<A>) -> bool {
        take(sequencer, &RELEASES).is_some()
            && (step_of_an_access(sequencer) || step_of_an_access(sequencer))
    }
}

#[test]
fn a_release_is_counted_by_its_clock(rt: HostRuntime) {
    assert!(rt; holds_always(rt.alloc(), &[1], &StepOfRelease));
}
