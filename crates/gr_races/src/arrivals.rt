//! What the items of a group bring to the first divergent barrier of a launch.

ghost use Rattle.std.specs.Prelude.{◌≡◌, IfOk};
ghost use Rattle.gr_model.specs.Prelude.{size_of};
ghost use Rattle.gr_lanes.specs.Remembered.{IsRemembered, IsWhole};
ghost use Rattle.gr_races.specs.Arrivals as spec;

use crate::between::{Crossing, crossing_of};
use crate::taken::take_all;
use gr_lanes::instance::barrier;
use gr_lanes::lanes::Lanes;
use gr_model::event::ItemId;
use gr_model::memory::Memory;
use gr_model::report::Divergence;
use gr_model::traces::Traces;
use std::alloc::Allocator;

/// An item's barrier of an instance, if it came.
fn came<A: Allocator>(lanes: &Lanes<A>, item: ItemId, number: u32) -> Option<Crossing>
    requires { IsRemembered lanes.now item number }
    ensures { result ≡ spec.came lanes.now.streams item.group number item.item }
{
    let event = barrier(lanes, item, number)?;
    crossing_of(number as usize, &event)
}

/// How many items a group has; 0 if it is not there.
fn items_of<A: Allocator>(lanes: &Lanes<A>, group: u16) -> u16
    ensures { result ≡ size_of lanes.now.streams group }
{
    let shape = lanes.shape();
    if group < shape.groups() {
        shape.items(group)
    } else {
        0
    }
}

/// For each item of a group its barrier of an instance, if it came.
fn came_to<A: Allocator>(
    alloc: A,
    lanes: &Lanes<A>,
    group: u16,
    number: u32,
) -> Result<Vec<Option<Crossing>, A>, Memory>
    requires { IsWhole lanes.now }
    ensures { IfOk result (λ all. all.items ≡ spec.came_to lanes.now.streams group number) }
{
    let mut all = Vec::new(alloc);
    for item in 0..items_of(lanes, group) {
        all.push(came(lanes, ItemId { group, item }, number))?;
    }
    Ok(all)
}

/// For each item of its group its barrier of the first of these divergent instances, if it came; nothing if there is no instance.
pub(crate) fn came_to_first<A: Allocator + Copy>(
    alloc: A,
    traces: &Traces<A>,
    divergences: &[Divergence],
) -> Result<Vec<Option<Crossing>, A>, Memory>
    ensures { IfOk result (λ all. all.items ≡ spec.came_to_first traces.now divergences.now) }
{
    let Some(first) = divergences.first().copied() else {
        return Ok(Vec::new(alloc));
    };
    let lanes = take_all(alloc, traces)?;
    came_to(alloc, &lanes, first.group, first.instance)
}
