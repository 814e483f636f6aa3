//! Which steps may become ready when a record is taken.

ghost use Rattle.std.specs.Prelude.{◌≡◌, ◌≤◌, true, IsTrue, is_some};
ghost use Rattle.gr_model.specs.Prelude.{mark_of};
ghost use Rattle.gr_lanes.specs.Remembered.{forgotten_of};
ghost use Rattle.gr_agenda.specs.Reaches.{IsFollowing, IsReach, next_instance};

use gr_lanes::instance::came_with;
use gr_lanes::kinds::is_barrier;
use gr_lanes::lanes::Lanes;
use gr_model::event::{Event, ItemId};
use std::alloc::Allocator;

/// Which steps may become ready when a record is taken.
#[derive(Clone, Copy, Debug, PartialEq, Eq)]
pub(crate) enum Reach {
    /// Those of its item.
    Item,
    /// Those of its item, and the meeting of the instance with this number: the record is a barrier that brings the item there, and
    /// another item came there with the same mark.
    Instance(u32),
    /// The record is a barrier that brings its item to the instance with this number. If that makes the instance divergent, those of
    /// each item of the group; else the meeting of the instance.
    Mark(u32),
    /// Those of each item of its group.
    Group,
}

/// Whether one of two neighbours of a barrier's item came with the same mark to the barrier's instance: then the mark is not new
/// there.
fn is_following<A: Allocator>(lanes: &Lanes<A>, group: u16, instance: u32, event: &Event) -> bool
    requires barrier { is_some (mark_of event.now) ≡ true }
    requires instance { instance ≡ next_instance lanes.now.streams group event.now.item }
    requires remembered { forgotten_of lanes.now group ≤ instance }
    ensures { IsTrue result → IsFollowing lanes.now.streams group event.now }
{
    let item = event.item.saturating_sub(1);
    let before = ItemId { group, item };
    let item = event.item.saturating_add(1);
    let after = ItemId { group, item };
    came_with(lanes, before, instance, event) || came_with(lanes, after, instance, event)
}

/// Which steps may become ready when a record of a group is taken.
#[inline(always)]
pub(crate) fn reach_of<A: Allocator>(lanes: &Lanes<A>, group: u16, event: &Event) -> Reach
    ensures { IsReach lanes.now.streams group event.now result }
{
    if event.kind.is_end() {
        return Reach::Group;
    }
    if !is_barrier(event) {
        return Reach::Item;
    }
    let item = event.item;
    let instance = lanes.barrier_count(ItemId { group, item });
    // this may be so for an item that is not there, which has no barriers
    if instance < lanes.forgotten(group) {
        return Reach::Group;
    }
    if is_following(lanes, group, instance, event) {
        Reach::Instance(instance)
    } else {
        Reach::Mark(instance)
    }
}
