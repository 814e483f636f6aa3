//! The calls of a sequencer, each tried twice: a try without memory must change nothing, and then the second try
//! counts. `None`: the first try changed something, or the second failed too.

ghost use Rattle.std.specs.Prelude.{IsTrue};
ghost use Rattle.gr_lanes.specs.Takes.{IsEventButItem};

use crate::rows::{Record, event_of};
use gr_model::event::{Event, EventId, ItemId, event_ok};
use gr_model::memory::Memory;
use gr_model::shape::Shape;
use gr_order::go_error::GoError;
use gr_sequencer::handled::Handled;
use gr_sequencer::sequencer::Sequencer;
use refusing::growths::tried;
use std::alloc::Allocator;

/// Whether some group may have the event.
pub(crate) fn is_lawful(event: &Event) -> bool
    ensures { IsTrue result → IsEventButItem event.now }
{
    event_ok(event, 256)
}

/// A shape of these sizes.
pub(crate) fn shape_of<A: Allocator + Copy>(alloc: A, sizes: &[u16]) -> Result<Shape<A>, Memory> {
    Shape::new(Vec::from_slice(alloc, sizes)?).map_err(|_| Memory)
}

/// What is made, tried twice.
pub(crate) fn twice<T, F: Fn() -> Result<T, Memory>>(make: F) -> Option<T>
    requires { F.IsAlwaysCallable make }
{
    match make() {
        Ok(made) => Some(made),
        Err(Memory) => make().ok(),
    }
}

fn new_once<A: Allocator + Copy>(alloc: A, sizes: &[u16]) -> Result<Sequencer<A>, Memory> {
    let shape = shape_of(alloc, sizes)?;
    Sequencer::new(alloc, shape)
}

/// A sequencer of a launch of these sizes.
pub(crate) fn new<A: Allocator + Copy>(alloc: A, sizes: &[u16]) -> Option<Sequencer<A>> {
    twice(|| new_once(alloc, sizes))
}

/// What a sequencer says of itself: how many records it took of each of three groups, how many events it holds, and
/// whether it is at its end.
fn state<A: Allocator>(sequencer: &Sequencer<A>) -> ([u32; 3], u64, bool) {
    (
        [sequencer.taken(0), sequencer.taken(1), sequencer.taken(2)],
        sequencer.held(),
        sequencer.at_end(),
    )
}

fn take_once<A: Allocator + Copy>(
    sequencer: &mut Sequencer<A>,
    record: &Record,
) -> Result<(), Memory> {
    let event = event_of(record);
    if !is_lawful(&event) || sequencer.taken(record.0) >= 16_777_216 {
        return Err(Memory);
    }
    sequencer.take(record.0, event).map_err(|_| Memory)
}

pub(crate) fn take<A: Allocator + Copy>(
    sequencer: &mut Sequencer<A>,
    record: &Record,
) -> Option<()> {
    tried(sequencer, state, |sequencer| take_once(sequencer, record))
}

fn take_and_handle_once<A: Allocator + Copy>(
    sequencer: &mut Sequencer<A>,
    record: &Record,
) -> Result<Option<EventId>, Memory> {
    let event = event_of(record);
    if !is_lawful(&event) || sequencer.taken(record.0) >= 16_777_216 {
        return Err(Memory);
    }
    let answer = sequencer.take_and_handle(record.0, event);
    answer.map_err(|_| Memory)
}

/// The event that was handled, or `None` if it waits.
pub(crate) fn take_and_handle<A: Allocator + Copy>(
    sequencer: &mut Sequencer<A>,
    record: &Record,
) -> Option<Option<EventId>> {
    tried(
        sequencer,
        state,
        |sequencer| take_and_handle_once(sequencer, record),
    )
}

pub(crate) fn step<A: Allocator + Copy>(
    sequencer: &mut Sequencer<A>,
) -> Option<Option<Handled<A>>> {
    tried(sequencer, state, |sequencer| sequencer.step())
}

/// The step, or `None` if it is not ready.
pub(crate) fn handle<A: Allocator + Copy>(
    sequencer: &mut Sequencer<A>,
    item: ItemId,
) -> Option<Option<Handled<A>>> {
    tried(sequencer, state, |sequencer| judged(sequencer.handle(item)))
}

/// The step, or `None` if it is not ready.
pub(crate) fn meet<A: Allocator + Copy>(
    sequencer: &mut Sequencer<A>,
    group: u16,
) -> Option<Option<Handled<A>>> {
    tried(sequencer, state, |sequencer| judged(sequencer.meet(group)))
}

fn judged<A: Allocator>(answer: Result<Handled<A>, GoError>) -> Result<Option<Handled<A>>, Memory> {
    match answer {
        Ok(handled) => Ok(Some(handled)),
        Err(GoError::NotReady) => Ok(None),
        Err(GoError::Memory) => Err(Memory),
    }
}
