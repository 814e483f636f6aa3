//! How many records of each item of a group, and how many barriers among them, the pass over the group's list has seen.

ghost use Rattle.std.specs.Prelude.{◌≡◌, ◌<◌, [], ℕ, IfOk, Some, length, option_map, slice_get};
ghost use Rattle.gr_timeline.specs.Counting.{AreCounts, IsSmall, after_record};

use gr_lanes::kinds::is_barrier;
use gr_model::event::Event;
use gr_model::memory::Memory;
use std::alloc::Allocator;

/// What the pass has seen of one item.
#[derive(Clone, Copy, Debug, PartialEq, Eq)]
pub(crate) struct Count {
    /// How many of its records.
    pub(crate) records: u32,
    /// How many of these are barriers.
    pub(crate) barriers: usize,
}

/// The counts of so many items at the start.
pub(crate) fn none_counted<A: Allocator + Copy>(
    alloc: A,
    items: u16,
) -> Result<Vec<Count, A>, Memory>
    ensures { IfOk result (λ counts. AreCounts items [] counts.items) }
{
    let none = Count {
        records: 0,
        barriers: 0,
    };
    Ok(vec![in alloc; none; items as usize]?)
}

/// Counts a record of a group, unless it is the end of its list.
pub(crate) fn count_record<A: Allocator>(counts: &mut Vec<Count, A>, event: &Event)
    requires item { event.now.item < length counts.old.items }
    requires small { (c : Count) → slice_get counts.old.items event.now.item ≡ Some c → IsSmall c }
    ensures length { length counts.new.items ≡ length counts.old.items }
    ensures each { (i : ℕ) → slice_get counts.new.items i ≡ option_map (after_record i event.now) (slice_get counts.old.items i) }
{
    if !event.kind.is_end() {
        let place = event.item as usize;
        let count = counts[place];
        counts[place] = Count {
            records: count.records + 1,
            barriers: count.barriers + usize::from(is_barrier(event)),
        };
    }
}
