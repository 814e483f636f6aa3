//! The details of an event: what a report says of an access.

ghost use Rattle.std.specs.Prelude.{◌≡◌, ◌<◌, Some, filter, length, slice_get, take};
ghost use Rattle.gr_model.specs.Barriers as barriers;
ghost use Rattle.gr_model.specs.Streams as model;
ghost use Rattle.gr_timeline.specs.Details as spec;

use gr_explain::records::Records;
use gr_lanes::kinds::is_barrier;
use gr_model::event::{Event, EventId, Kind};
use gr_model::traces::Traces;
use std::alloc::Allocator;

/// One event of a launch.
#[derive(Clone, Copy, Debug, PartialEq, Eq)]
pub struct Details {
    /// What its record says.
    pub kind: Kind,
    /// The number of its record in its group's stream, from 0.
    pub number: usize,
    /// How many barriers of its item come before it.
    pub phase: usize,
}

/// Whether a record is one of an item's trace.
pub fn is_of(event: &Event, item: u16) -> bool
    ensures { result ≡ model.is_of item event.now }
{
    event.item == item && !event.kind.is_end()
}

/// The number in a list of the record of this index in an item's trace, if there is one.
fn record_number(list: &[Event], item: u16, index: u32) -> Option<usize>
    ensures { result ≡ slice_get (model.places_from (model.is_of item) 0 list.now) index }
{
    let mut before = index;
    for (place, event) in list.iter().enumerate() {
        if is_of(event, item) {
            if before == 0 {
                return Some(place);
            }
            before -= 1;
        }
    }
    None
}

/// How many of the first records of an item in a list are barriers.
pub fn barriers_before(list: &[Event], item: u16, index: u32) -> usize
    ensures { result ≡ length (filter barriers.is_barrier (take index (filter (model.is_of item) list.now))) }
{
    list.iter()
        .filter(|event| is_of(event, item))
        .take(index as usize)
        .filter(|event| is_barrier(event))
        .count()
}

/// The details of an event of a group, or `None` if its item has no event of this index.
pub fn details_at<A: Allocator>(
    traces: &Traces<A>,
    records: &Records<'_, A>,
    event: EventId,
) -> Option<Details>
    requires same { records.now ≡ traces.now }
    requires group { event.at.group < length traces.now.sizes }
    ensures { result ≡ spec.details_of traces.now event }
{
    let list = traces.list(event.at.group);
    let taken = records.event_at(event)?;
    let number = record_number(list, event.at.item, event.index)?;
    Some(Details {
        kind: taken.kind,
        number,
        phase: barriers_before(list, event.at.item, event.index),
    })
}

/// The details of an event of a launch. It takes time that grows with the records of the event's group.
#[tactic(auto, using(crate::proofs::GroupLemmas::event_is_told))]
pub fn details_of<A: Allocator>(
    traces: &Traces<A>,
    records: &Records<'_, A>,
    event: EventId,
) -> Details
    requires same { records.now ≡ traces.now }
    requires there { model.IsEvent traces.now event }
    ensures { spec.details_of traces.now event ≡ Some result }
{
    let within = event.at.group < traces.shape().groups();
    prove!(within);
    details_at(traces, records, event).unwrap()
}
