//! One instance of a work-group's barriers, as far as it was taken. The k-th barriers of the group's items are its instance k
//! (docs/MODEL.md, "Barriers").

ghost use Rattle.std.specs.Prelude.{◌≡◌, ◌↔◌, ◌<◌, ◌≤◌, true, IsTrue, MatchOption, is_some, length};
ghost use Rattle.gr_model.specs.Prelude.{IsDivergent, arrivals, mark_of, size_of};
ghost use Rattle.gr_barriers.specs.Summaries.{IsSummaryOf};
ghost use Rattle.gr_lanes.specs.Remembered.{IsRemembered, forgotten_of};

use crate::lanes::Lanes;
use gr_barriers::mark::Mark;
use gr_barriers::summary::Summary;
use gr_model::event::{Event, ItemId, Kind};
use std::alloc::Allocator;

/// The record of an item's barrier with this number, if it was taken.
/// Requires: its instance is not forgotten.
#[inline(always)]
pub fn barrier<A: Allocator>(lanes: &Lanes<A>, item: ItemId, number: u32) -> Option<Event>
    requires { IsRemembered lanes.now item number }
    ensures { MatchOption result (arrivals lanes.now.streams item.group number item.item ≡ None) (λ x. (arrivals lanes.now.streams item.group number item.item ≡ mark_of x) × (is_some (mark_of x) ≡ true)) }
{
    lanes.barrier_event(item, number)
}

/// Whether two barriers have one site and the same flags.
pub fn has_mark_of(mine: &Event, other: &Event) -> bool
    requires { is_some (mark_of mine.now) ≡ true }
    ensures { IsTrue result ↔ (mark_of other.now ≡ mark_of mine.now) }
{
    other.kind == mine.kind && other.word == mine.word
}

/// Whether an item came to an instance with the mark of a barrier.
/// Requires: the instance is not forgotten.
#[inline(always)]
pub fn came_with<A: Allocator>(lanes: &Lanes<A>, item: ItemId, number: u32, mine: &Event) -> bool
    requires mark { is_some (mark_of mine.now) ≡ true }
    requires remembered { IsRemembered lanes.now item number }
    ensures { IsTrue result ↔ (arrivals lanes.now.streams item.group number item.item ≡ mark_of mine.now) }
{
    match barrier(lanes, item, number) {
        None => false,
        Some(other) => has_mark_of(mine, &other),
    }
}

/// The mark that an item brought to an instance, if it came.
/// Requires: the instance is not forgotten.
fn arrival<A: Allocator>(lanes: &Lanes<A>, item: ItemId, number: u32) -> Option<Mark>
    requires { IsRemembered lanes.now item number }
    ensures { result ≡ arrivals lanes.now.streams item.group number item.item }
{
    let event = barrier(lanes, item, number)?;
    match event.kind {
        Kind::Barrier { global, local } => Some(Mark::new(event.word, global, local)),
        _ => None,
    }
}

/// The marks that a group's items brought to an instance, in sum.
/// Requires: the instance is not forgotten.
pub fn summary<A: Allocator>(lanes: &Lanes<A>, group: u16, number: u32) -> Summary
    requires group { group < length lanes.now.streams.sizes }
    requires remembered { forgotten_of lanes.now group ≤ number }
    ensures { IsSummaryOf (size_of lanes.now.streams group) (arrivals lanes.now.streams group number) result }
{
    let mut summary = Summary::new();
    for item in 0..lanes.shape().items(group) {
        summary = summary.adding(arrival(lanes, ItemId { group, item }, number));
    }
    summary
}

/// Whether an instance is divergent. It stops at the first item that shows it.
/// Requires: it is not forgotten.
pub fn is_divergent<A: Allocator>(lanes: &Lanes<A>, group: u16, number: u32) -> bool
    requires group { group < length lanes.now.streams.sizes }
    requires remembered { forgotten_of lanes.now group ≤ number }
    ensures { IsTrue result ↔ IsDivergent lanes.now.streams group number }
{
    if lanes.none_differs(group, number) {
        return false;
    }
    let ended = lanes.is_complete(group);
    let mut summary = Summary::new();
    for item in 0..lanes.shape().items(group) {
        summary = summary.adding(arrival(lanes, ItemId { group, item }, number));
        if summary.is_divergent(ended) {
            return true;
        }
    }
    false
}
