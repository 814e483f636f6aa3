//! The report of a launch.

ghost use Rattle.std.specs.Prelude.{IfOk};
ghost use Rattle.gr_model.specs.Prelude.{IsReportOf};
ghost use Rattle.gr_report.specs.Whole.{whole_of};

use gr_intake::reports::report_of;
use gr_model::memory::Memory;
use gr_model::traces::Traces;
use gr_report::report::Report;
use gr_shadow::launch::LaunchShadows;
use gr_taking::keeper::ShadowKeeper;
use gr_taking::traces::follow;
use std::alloc::Allocator;

/// The report of a launch.
///
/// # Errors
/// `Memory` where a list can't be made.
pub fn detect<A: Allocator + Copy>(alloc: A, traces: &Traces<A>) -> Result<Report<A>, Memory>
    ensures { IfOk result (λ report. IsReportOf traces.now (whole_of report)) }
{
    let mut shadows = LaunchShadows::new(alloc);
    let sequencer = follow(alloc, traces, &ShadowKeeper, &mut shadows)?;
    report_of(&sequencer, &shadows)
}
