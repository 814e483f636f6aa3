//! The exit statuses of the program.

ghost use Rattle.std.specs.Prelude.{◌≡◌};
ghost use Rattle.gr_report.specs.Whole.{whole_of};
ghost use Rattle.gr_command.specs.Statuses.{check_status, fault_status, race_status, sides_fault_status, IsReportStatus};

use gr_places::sides_fault::SidesFault;
use gr_record::error::RecordError;
use gr_record::fault::Fault;
use gr_report::found;
use gr_report::report::Report;
use std::alloc::Allocator;

/// Nothing was found, the input was rewritten, or help was written.
pub const NOTHING: u8 = 0;

/// A race, a divergent barrier or an unmatched acquire was found.
pub const FOUND: u8 = 1;

/// The trace, its text or a side file was refused.
pub const REFUSED: u8 = 2;

/// The arguments are wrong.
pub const USAGE: u8 = 3;

/// Memory ran out, or a thread could not be started.
pub const NO_MEMORY_OR_THREAD: u8 = 4;

/// Reading or writing failed.
pub const FAILED: u8 = 5;

/// The status of a run that failed. Each fault is listed, so a new fault does not compile until it has a status.
pub fn status_of(fault: &Fault) -> u8
    ensures { result ≡ fault_status fault.now }
{
    match fault {
        Fault::Stream(_, RecordError::Memory) => NO_MEMORY_OR_THREAD,
        Fault::Stream(_, _)
        | Fault::SameGroup(_)
        | Fault::OtherLaunch(_)
        | Fault::MissingGroup(_)
        | Fault::Shape(_)
        | Fault::BadLine(_)
        | Fault::NoEnd
        | Fault::LongStream(_) => REFUSED,
        Fault::Memory | Fault::Threads => NO_MEMORY_OR_THREAD,
        Fault::Read | Fault::Write => FAILED,
    }
}

/// The status of a run with side files that failed.
pub fn status_of_sides_fault(fault: &SidesFault) -> u8
    ensures { result ≡ sides_fault_status fault.now }
{
    match fault {
        SidesFault::Run(fault) => status_of(fault),
        SidesFault::Places(_) | SidesFault::Buffers(_) => REFUSED,
    }
}

/// The status of a run that gave this report.
pub fn status_of_report<A: Allocator>(report: &Report<A>) -> u8
    ensures { IsReportStatus (whole_of report.now) result }
{
    if found(report) { FOUND } else { NOTHING }
}

/// The status of a run that looked for a race.
pub fn status_of_race(found: bool) -> u8
    ensures { result ≡ race_status found }
{
    if found { FOUND } else { NOTHING }
}

/// The status of a check.
pub fn status_of_check(accepted: bool) -> u8
    ensures { result ≡ check_status accepted }
{
    if accepted { NOTHING } else { REFUSED }
}
