//! Divergent instances of barriers that lie between two events of one work-group.

ghost use Rattle.std.specs.Prelude.{◌↔◌, ◌<◌, ℕ, IsTrue, length};
ghost use Rattle.gr_model.specs.Prelude.{HasItem};
ghost use Rattle.gr_lanes.specs.Remembered.{IsRemembered, IsWhole};
ghost use Rattle.gr_races.specs.Parting.{AreParted, HasDivergent, IsBehind};

use gr_lanes::instance::is_divergent;
use gr_lanes::lanes::Lanes;
use gr_model::event::EventId;
use std::alloc::Allocator;

/// Whether an event comes after its item's barrier of this number.
fn is_behind<A: Allocator>(lanes: &Lanes<A>, event: EventId, number: u32) -> bool
    requires { IsRemembered lanes.now event.at number }
    ensures { IsTrue result ↔ IsBehind lanes.now.streams event number }
{
    lanes
        .barrier_at(event.at, number)
        .is_some_and(|place| place < event.index)
}

/// How many of its item's barriers come before an event.
fn barriers_above<A: Allocator>(lanes: &Lanes<A>, event: EventId) -> u32
    requires item { HasItem lanes.now.streams.sizes event.at }
    requires whole { IsWhole lanes.now }
    ensures { (k : ℕ) → k < result ↔ IsBehind lanes.now.streams event k }
{
    let (mut least, mut most) = (0, event.index);
    while least < most {
        let middle = least + (most - least) / 2;
        if is_behind(lanes, event, middle) {
            least = middle + 1;
        } else {
            most = middle;
        }
    }
    least
}

/// Whether an instance of a group's barriers, from one number to below another, is divergent.
/// Requires: none is forgotten.
fn has_divergent<A: Allocator>(lanes: &Lanes<A>, group: u16, from: u32, to: u32) -> bool
    requires group { group < length lanes.now.streams.sizes }
    requires whole { IsWhole lanes.now }
    ensures { IsTrue result ↔ HasDivergent lanes.now.streams group from to }
{
    for number in from..to {
        if is_divergent(lanes, group, number) {
            return true;
        }
    }
    false
}

/// Whether a divergent instance lies between two events. It looks at no other instances.
pub(crate) fn are_parted<A: Allocator>(lanes: &Lanes<A>, first: EventId, second: EventId) -> bool
    requires first { HasItem lanes.now.streams.sizes first.at }
    requires second { HasItem lanes.now.streams.sizes second.at }
    requires whole { IsWhole lanes.now }
    ensures { IsTrue result ↔ AreParted lanes.now.streams first second }
{
    let above_first = barriers_above(lanes, first);
    let above_second = barriers_above(lanes, second);
    has_divergent(lanes, first.at.group, above_second, above_first)
        || has_divergent(lanes, second.at.group, above_first, above_second)
}
