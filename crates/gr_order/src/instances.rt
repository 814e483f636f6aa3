//! The divergent instances of barriers.
//!
//! The k-th barriers of a group's items are its instance k (docs/MODEL.md, "Barriers").

ghost use Rattle.std.specs.Prelude.{◌<◌, ◌≤◌, ◌+◌, IfOk, MatchOption, OnOk, length};
ghost use Rattle.gr_model.specs.Prelude.{IsDivergent, arrivals, HasDivergenceCause, DivergenceBelow, IsDivergence, Lists, is_complete};
ghost use Rattle.gr_model.specs.Prelude.{list_of, size_of};
ghost use Rattle.gr_barriers.specs.Listings.{AreListedBefore};
ghost use Rattle.gr_lanes.specs.Remembered.{AreDecided, forgotten_of};

use gr_lanes::instance::summary;
use gr_lanes::lanes::Lanes;
use gr_model::memory::Memory;
use gr_model::report::{Divergence, DivergenceCause};
use std::alloc::Allocator;

/// Why an instance is divergent, or `None` where it is not.
/// Requires: it is not forgotten.
pub fn cause<B: Allocator>(lanes: &Lanes<B>, group: u16, number: u32) -> Option<DivergenceCause>
    requires group { group < length lanes.now.streams.sizes }
    requires remembered { forgotten_of lanes.now group ≤ number }
    ensures { MatchOption result (¬ IsDivergent lanes.now.streams group number) (λ c. HasDivergenceCause (is_complete (list_of lanes.now.streams group)) (size_of lanes.now.streams group) (arrivals lanes.now.streams group number) c) }
{
    if lanes.none_differs(group, number) {
        return None;
    }
    summary(lanes, group, number).cause(lanes.is_complete(group))
}

/// Adds the divergent instances of a group to those of the groups before it. The forgotten ones are kept. No item has more barriers
/// than its group has records, and there is no instance after one to which nobody came.
fn add_group<A: Allocator, B: Allocator>(
    lanes: &Lanes<B>,
    group: u16,
    list: &mut Vec<Divergence, A>,
) -> Result<(), Memory>
    requires group { group < length lanes.now.streams.sizes }
    requires decided { AreDecided lanes.now }
    requires before { AreListedBefore (IsDivergence lanes.now.streams) group 0 list.old.items }
    ensures { OnOk result (AreListedBefore (IsDivergence lanes.now.streams) (group + 1) 0 list.new.items) }
{
    list.extend_from_slice(lanes.decided(group))?;
    for instance in lanes.forgotten(group)..lanes.taken(group) {
        let came = summary(lanes, group, instance);
        if came.is_empty() {
            return Ok(());
        }
        if let Some(cause) = came.cause(lanes.is_complete(group)) {
            list.push(Divergence {
                group,
                instance,
                cause,
            })?;
        }
    }
    Ok(())
}

/// The divergent instances with their causes, by group and then by instance.
/// Requires: the divergent ones among the forgotten instances are kept.
///
/// # Errors
/// `Memory`: out of memory.
pub fn divergences<A: Allocator, B: Allocator>(
    alloc: A,
    lanes: &Lanes<B>,
) -> Result<Vec<Divergence, A>, Memory>
    requires decided { AreDecided lanes.now }
    ensures { IfOk result (λ v. Lists DivergenceBelow (IsDivergence lanes.now.streams) v.items) }
{
    let mut list = Vec::new(alloc);
    for group in 0..lanes.shape().groups() {
        add_group(lanes, group, &mut list)?;
    }
    Ok(list)
}
