//! What is done where an instance meets: the next event of each item of its group is handled.

ghost use Rattle.std.specs.Prelude.{◌≡◌, ◌+◌, ◌++◌, ◌<◌, ◌≤◌, ℕ, length, slice_index};
ghost use Rattle.gr_clocks.specs.declared.clock.TheConstants.{LARGEST_COUNT};
ghost use Rattle.gr_clocks.specs.Counts.{count_of, sizes_of};
ghost use Rattle.gr_clocks.specs.Tables.{item_of};
ghost use Rattle.gr_order.specs.States.{TicksItems, next_events};

use gr_clocks::tally::Tally;
use gr_model::event::{EventId, ItemId};
use gr_model::history::History;
use std::alloc::Allocator;

/// Adds the next event of each item of a group to the order.
#[tactic(auto, using(crate::proofs::PassLemmas::one_event_more))]
pub(crate) fn add_next_events<A: Allocator>(
    handled: &mut History<EventId>,
    frontier: &Tally<A>,
    group: u16,
    size: u16,
)
    ensures { handled.new ≡ handled.old ++ next_events frontier.now group size }
{
    for item in 0..size {
        let at = ItemId { group, item };
        let index = frontier.get(at);
        handled.push(&EventId { at, index });
    }
}

/// Counts the next event of each of the first items of a group.
pub(crate) fn count_next_events<A: Allocator>(frontier: &mut Tally<A>, group: u16, items: u16)
    requires group { group < length (sizes_of frontier.old) }
    requires items { items ≤ slice_index (sizes_of frontier.old) group }
    requires room { (k : ℕ) → k < items → count_of frontier.old (item_of group k) < LARGEST_COUNT }
    ensures { TicksItems frontier.old group items frontier.new }
{
    for item in 0..items {
        frontier.raise(ItemId { group, item });
    }
}
