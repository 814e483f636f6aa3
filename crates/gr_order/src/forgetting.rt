//! Which instances of barriers are forgotten: the first ones of each group, once all its items have passed them.

ghost use Rattle.std.specs.Prelude.{◌<◌, ◌≤◌, ℕ, IsTrue, MatchOption, ⊤, length};
ghost use Rattle.gr_model.specs.Prelude.{size_of};
ghost use Rattle.gr_lanes.specs.Remembered.{forgotten_of};
ghost use Rattle.gr_order.specs.Forgetting.{ForgetsNext, ForgetsPassed, HasPassed, HaveAllPassed};
ghost use Rattle.gr_order.specs.Readiness.{IsNextInstance};

use crate::instances::cause;
use gr_clocks::tally::Tally;
use gr_lanes::lanes::Lanes;
use gr_model::event::ItemId;
use gr_model::report::Divergence;
use std::alloc::Allocator;

/// Forgets the instance whose barriers are the next events of a group's items, if it is the first one remembered.
pub(crate) fn forget_next<A: Allocator>(lanes: &mut Lanes<A>, frontier: &Tally<A>, group: u16)
    requires { (k : ℕ) × IsNextInstance lanes.old.streams frontier.now group k }
    ensures { ForgetsNext lanes.old frontier.now group lanes.new }
{
    let first = ItemId { group, item: 0 };
    let least = lanes.forgotten(group);
    if let Some(index) = lanes.barrier_at(first, least)
        && index == frontier.get(first)
    {
        lanes.forget(group);
    }
}

/// Whether an item's barrier of an instance was taken and handled. The instance is not forgotten.
fn has_passed<A: Allocator>(
    lanes: &Lanes<A>,
    frontier: &Tally<A>,
    item: ItemId,
    instance: u32,
) -> bool
    requires { forgotten_of lanes.now item.group ≤ instance }
    ensures { IsTrue result → HasPassed lanes.now.streams frontier.now item.group instance item.item }
{
    lanes
        .barrier_at(item, instance)
        .is_some_and(|index| frontier.covers(item, index))
}

/// The first item of a group, from this one on, that has not passed the first instance remembered, if there is one.
fn first_behind<A: Allocator>(
    lanes: &Lanes<A>,
    frontier: &Tally<A>,
    group: u16,
    from: u16,
) -> Option<u16>
    requires { group < length lanes.now.streams.sizes }
    ensures { MatchOption result ((i : ℕ) → from ≤ i → i < size_of lanes.now.streams group → HasPassed lanes.now.streams frontier.now group (forgotten_of lanes.now group) i) (λ i. ⊤) }
{
    let instance = lanes.forgotten(group);
    for item in from..lanes.shape().items(group) {
        if !has_passed(lanes, frontier, ItemId { group, item }, instance) {
            return Some(item);
        }
    }
    None
}

/// Whether a group has items and all of them have passed the first instance remembered.
fn have_all_passed<A: Allocator>(lanes: &Lanes<A>, frontier: &Tally<A>, group: u16) -> bool
    requires { group < length lanes.now.streams.sizes }
    ensures { IsTrue result → HaveAllPassed lanes.now.streams frontier.now group (forgotten_of lanes.now group) }
{
    lanes.shape().items(group) != 0 && first_behind(lanes, frontier, group, 0).is_none()
}

/// Forgets the first instance of a group that is remembered, if all items have passed it. A divergent one stays where memory is
/// short.
fn forget_passed<A: Allocator>(lanes: &mut Lanes<A>, frontier: &Tally<A>, group: u16)
    requires { group < length lanes.old.streams.sizes }
    ensures { ForgetsPassed lanes.old frontier.now group lanes.new }
{
    if !have_all_passed(lanes, frontier, group) {
        return;
    }
    let instance = lanes.forgotten(group);
    match cause(lanes, group, instance) {
        None => lanes.forget(group),
        Some(cause) => {
            let _ = lanes.decide(Divergence {
                group,
                instance,
                cause,
            });
        }
    }
}

/// Forgets the first instance of a group that is remembered, once all items have passed it. It starts at the item that had not when
/// it looked last. So it looks at each item once, and at all of them once more at the end.
pub(crate) fn forget_if_passed<A: Allocator>(
    lanes: &mut Lanes<A>,
    frontier: &Tally<A>,
    lagging: &mut [u16],
    group: u16,
)
    requires { group < length lanes.old.streams.sizes }
    ensures { ForgetsPassed lanes.old frontier.now group lanes.new }
{
    let place = usize::from(group);
    if place >= lagging.len() {
        return;
    }
    match first_behind(lanes, frontier, group, lagging[place]) {
        Some(item) => lagging[place] = item,
        None => {
            lagging[place] = 0;
            forget_passed(lanes, frontier, group);
        }
    }
}
