//! What lies between the two accesses of a racing pair: barriers that one of them comes after and the other does not, a release after
//! either and an acquire before the other.

ghost use Rattle.std.specs.Prelude.{◌≡◌, ◌≤◌, ◌<◌, ◌&&◌, IfOk, None, Some, drop, filter, filter_map, find, if◌then◌else◌, length, nat_lt, option_and_then, take};
ghost use Rattle.std.specs.List.{enumerate_from, last_or, range_with_len};
ghost use Rattle.gr_model.specs.Prelude.{is_release, is_barrier};
ghost use Rattle.gr_model.specs.Streams as model;
ghost use Rattle.gr_races.specs.Between as spec;

use gr_explain::records::Records;
use gr_lanes::kinds::{is_barrier, is_release};
use gr_model::event::{Event, EventId, ItemId, Kind};
use gr_model::limits::MOST_RECORDS;
use gr_model::memory::Memory;
use gr_model::traces::Traces;
use gr_timeline::details::{Details, barriers_before, details_at, is_of};
use std::alloc::{AllocError, Allocator, Global};

/// A barrier instance that one of two accesses of a work-group comes after, and the other does not.
#[derive(Clone, Copy, Debug, PartialEq, Eq)]
pub struct Crossing {
    /// The number of the instance in its group, from 0.
    pub instance: usize,
    /// The site of the barrier.
    pub site: u32,
    /// Whether its flags name global memory.
    pub global: bool,
    /// Whether its flags name local memory.
    pub local: bool,
}

/// An event of a launch, with its record and its details.
#[derive(Clone, Copy, Debug, PartialEq, Eq)]
pub struct DetailedEvent {
    /// The event.
    pub event: EventId,
    /// What its record says.
    pub said: Event,
    /// What it is.
    pub details: Details,
}

/// What lies between the two accesses of a racing pair.
#[derive(Drop)]
#[derive_where(Debug)]
pub struct Between<A: Allocator = Global> {
    /// Of two accesses of one group, the barrier instances that one comes after and the other does not, ascending.
    pub crossings: Vec<Crossing, A>,
    /// The first release of its item after the first access.
    pub release: Option<DetailedEvent>,
    /// The last acquire of its item before the second access.
    pub acquire: Option<DetailedEvent>,
    /// The first release of its item after the second access.
    pub release_back: Option<DetailedEvent>,
    /// The last acquire of its item before the first access.
    pub acquire_back: Option<DetailedEvent>,
}

/// The instance of a barrier, which has this number among its item's barriers.
pub(crate) fn crossing_of(instance: usize, event: &Event) -> Option<Crossing>
    ensures { result ≡ spec.crossing_of (instance, event.now) }
{
    let Kind::Barrier { global, local } = event.kind else {
        return None;
    };
    Some(Crossing {
        instance,
        site: event.word,
        global,
        local,
    })
}

/// The barriers of an item before its record of this index, from the barrier of this number on.
fn passed<A: Allocator>(
    alloc: A,
    list: &[Event],
    item: u16,
    index: u32,
    from: usize,
) -> Result<Vec<Crossing, A>, AllocError>
    ensures { IfOk result (λ crossings. crossings.items ≡ filter_map spec.crossing_of (drop from (enumerate_from 0 (filter is_barrier (take index (filter (model.is_of item) list.now)))))) }
{
    list.iter()
        .filter(|event| is_of(event, item))
        .take(index as usize)
        .filter(|event| is_barrier(event))
        .enumerate()
        .skip(from)
        .filter_map(|(instance, event)| crossing_of(instance, event))
        .collect(alloc)
}

/// The barrier instances that one of two accesses of a group comes after and the other does not; none for accesses of two groups.
fn crossings<A: Allocator>(
    alloc: A,
    traces: &Traces<A>,
    first: EventId,
    second: EventId,
) -> Result<Vec<Crossing, A>, AllocError>
    requires { first.at.group < length traces.now.sizes }
    ensures { IfOk result (λ crossings. crossings.items ≡ spec.crossings traces.now first second) }
{
    if first.at.group != second.at.group {
        return Ok(Vec::new(alloc));
    }
    let list = traces.list(first.at.group);
    let first_phase = barriers_before(list, first.at.item, first.index);
    let second_phase = barriers_before(list, second.at.item, second.index);
    if first_phase < second_phase {
        passed(alloc, list, second.at.item, second.index, first_phase)
    } else {
        passed(alloc, list, first.at.item, first.index, second_phase)
    }
}

/// The least index above this one of a release of an item in a list.
fn release_above(list: &[Event], item: u16, index: u32) -> Option<u32>
    requires { length list.now ≤ MOST_RECORDS }
    ensures { result ≡ find (nat_lt index) (model.places_from is_release 0 (filter (model.is_of item) list.now)) }
{
    let mut at = 0;
    for event in list {
        if is_of(event, item) {
            if at > index && is_release(event) {
                return Some(at);
            }
            at += 1;
        }
    }
    None
}

/// Whether an item's event of this index is an acquire.
fn is_acquire_at<A: Allocator>(records: &Records<'_, A>, at: ItemId, index: u32) -> bool
    ensures { result ≡ spec.is_acquire_at records.now at index }
{
    records
        .event_at(EventId { at, index })
        .is_some_and(|event| event.kind.is_acquire())
}

/// The greatest index below this one of an acquire of an item.
fn acquire_below<A: Allocator>(records: &Records<'_, A>, at: ItemId, index: u32) -> Option<u32>
    ensures { result ≡ last_or None (filter (spec.is_acquire_at records.now at) (range_with_len 0 index)) }
{
    (0..index)
        .filter(|index| is_acquire_at(records, at, *index))
        .last()
}

/// An item's event of this index with its record and its details, if there is one.
fn detailed_at<A: Allocator>(
    traces: &Traces<A>,
    records: &Records<'_, A>,
    at: ItemId,
    index: Option<u32>,
) -> Option<DetailedEvent>
    requires same { records.now ≡ traces.now }
    requires group { at.group < length traces.now.sizes }
    ensures { result ≡ option_and_then (spec.detailed_at traces.now at) index }
{
    let event = EventId { at, index: index? };
    let said = records.event_at(event)?;
    let details = details_at(traces, records, event)?;
    Some(DetailedEvent {
        event,
        said,
        details,
    })
}

/// What lies between two accesses of a launch. It takes time that grows with the records of their groups.
///
/// # Errors
/// `Memory`: out of memory.
pub fn between_of<A: Allocator>(
    alloc: A,
    traces: &Traces<A>,
    records: &Records<'_, A>,
    first: EventId,
    second: EventId,
) -> Result<Between<A>, Memory>
    requires same { records.now ≡ traces.now }
    requires first { model.IsEvent traces.now first }
    requires second { model.IsEvent traces.now second }
    ensures { IfOk result (λ between. spec.between_said between ≡ spec.between_of traces.now first second) }
{
    let groups = traces.shape().groups();
    let within = first.at.group < groups && second.at.group < groups;
    prove!(within);
    let release = release_above(traces.list(first.at.group), first.at.item, first.index);
    let release_back = release_above(traces.list(second.at.group), second.at.item, second.index);
    let acquire = acquire_below(records, second.at, second.index);
    let acquire_back = acquire_below(records, first.at, first.index);
    Ok(Between {
        crossings: crossings(alloc, traces, first, second)?,
        release: detailed_at(traces, records, first.at, release),
        acquire: detailed_at(traces, records, second.at, acquire),
        release_back: detailed_at(traces, records, second.at, release_back),
        acquire_back: detailed_at(traces, records, first.at, acquire_back),
    })
}
