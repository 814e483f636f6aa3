//! The report of a launch whose events were all taken.

ghost use Rattle.std.specs.Prelude.{IfOk};
ghost use Rattle.gr_model.specs.Prelude.{IsReportOf};
ghost use Rattle.gr_order.specs.Sequences.{IsDone, IsSequence};
ghost use Rattle.gr_intake.specs.Sequencing.{AreShadowsOf};
ghost use Rattle.gr_report.specs.Whole.{whole_of};

use gr_model::memory::Memory;
use gr_report::report::Report;
use gr_sequencer::sequencer::Sequencer;
use gr_shadow::launch::LaunchShadows;
use gr_taking::reports::report_with;
use std::alloc::Allocator;

/// The report of a launch whose events were all taken, and handled as far as they can be.
///
/// # Errors
/// `Memory`: out of memory.
pub fn report_of<A: Allocator + Copy>(
    sequencer: &Sequencer<A>,
    shadows: &LaunchShadows<A>,
) -> Result<Report<A>, Memory>
    requires done { IsDone sequencer.now }
    requires sequence { IsSequence sequencer.now }
    requires shadows { AreShadowsOf sequencer.now shadows.now }
    ensures { IfOk result (λ report. IsReportOf sequencer.now.taken (whole_of report)) }
{
    let races = shadows.racy()?;
    let report = report_with(sequencer, races)?;
    Ok(report)
}
