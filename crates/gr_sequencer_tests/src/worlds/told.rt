//! What a world reports at rest.

use crate::calls::twice;
use crate::rows::Told;
use crate::told::{two, two_divergent, two_unmatched};
use gr_model::memory::Memory;
use gr_report::report::Report;
use gr_world::world::World;
use std::alloc::Allocator;

fn report_once<A: Allocator + Copy>(world: &World<A>) -> Result<Report<A>, Memory> {
    if world.at_rest() {
        world.report()
    } else {
        Err(Memory)
    }
}

/// What a world reports, tried twice; `None` where it is not at rest.
pub(crate) fn reported<A: Allocator + Copy>(world: &World<A>) -> Option<Told> {
    let report = twice(|| report_once(world))?;
    Some(Told {
        races: two(report.races.as_slice()),
        divergences: two_divergent(report.divergences.as_slice()),
        unmatched: two_unmatched(report.unmatched.as_slice()),
        cut: two(report.cut.as_slice()),
        held: report.held,
        groups: report.groups,
        items: report.items,
        records: report.records,
    })
}
