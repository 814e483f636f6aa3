//! From a reader to a writer.

ghost use Rattle.std.specs.Prelude.{◌≡◌, ◌≢◌, IfOk, IfErr, IfSome};
ghost use Rattle.std.specs.Io.KnownBytes.{Appends, Keeps};
ghost use Rattle.gr_intake.specs.Intakes.{IsIntake, IsNew};
ghost use Rattle.gr_intake.specs.Launch.{IsReadFault};
ghost use Rattle.gr_record.specs.Prelude.{IsOfReading};
ghost use Rattle.gr_replay.specs.Replays.{IsExact, IsReplayFault, WritesPrefix};
ghost use Rattle.gr_report.specs.ReportText.{report_text};
ghost use Rattle.gr_report.specs.Whole.{whole_of};

use crate::input::take_input;
use gr_intake::intake::Intake;
use gr_record::fault::Fault;
use gr_report::report::Report;
use gr_report::write;
use std::alloc::Allocator;
use std::io::{Read, Write};

/// Reads streams to their end into an intake of nothing, and makes the report on them.
///
/// # Errors
/// Those of `replay` but `Write`.
fn report_by<A: Allocator + Copy, T: Read>(
    alloc: A,
    reader: &mut T,
    intake: &mut Intake<A>,
) -> Result<Report<A>, Fault>
    requires intake { IsIntake intake.old }
    requires nothing { IsNew intake.old }
    ensures report { IfOk result (λ r. IfSome (T.remaining reader.old) (λ bytes. IsExact bytes (whole_of r))) }
    ensures fault { IfErr result (λ f. IfSome (T.remaining reader.old) (λ bytes. IsReadFault bytes f)) }
    ensures reading { IfErr result IsOfReading }
{
    take_input(alloc, reader, intake)?;
    intake.report()
}

/// Reads streams to their end, and makes the report on them.
///
/// # Errors
/// The first fault of the streams from the left, as soon as it is met, then `MissingGroup`, then `Shape`; `Read` where the reader
/// fails, or gives no end within 4,294,967,296 calls; `Memory`: out of memory.
pub fn read_report<A: Allocator + Copy, T: Read>(
    alloc: A,
    reader: &mut T,
) -> Result<Report<A>, Fault>
    ensures report { IfOk result (λ r. IfSome (T.remaining reader.old) (λ bytes. IsExact bytes (whole_of r))) }
    ensures fault { IfErr result (λ f. IfSome (T.remaining reader.old) (λ bytes. IsReadFault bytes f)) }
    ensures reading { IfErr result IsOfReading }
{
    let mut intake = Intake::new(alloc)?;
    report_by(alloc, reader, &mut intake)
}

/// Reads streams to their end, and writes the text of the report on them and nothing else. Records are taken as they come; only
/// those that wait are kept.
///
/// # Errors
/// Those of `read_report`; `Write` where the writer fails, which then has a prefix of the text. At every other error nothing
/// is written.
///
/// # Example
/// ```rust
/// // `bytes` are a stream in which two items write and read global word 16, and nothing orders them.
/// let mut text = Vec::new(rt.alloc());
/// let report = replay(rt.alloc(), &mut bytes.as_slice(), &mut text).ok().ok_or("a report")?;
/// assert!(rt; report.races.as_slice() == [Word::Global(16)].as_slice());
/// ```
pub fn replay<A: Allocator + Copy, T: Read, W: Write>(
    alloc: A,
    reader: &mut T,
    writer: &mut W,
) -> Result<Report<A>, Fault>
    ensures report { IfOk result (λ r. IfSome (T.remaining reader.old) (λ bytes. IsExact bytes (whole_of r))) }
    ensures text { IfOk result (λ r. Appends (W.contents writer.old) (W.contents writer.new) (report_text (whole_of r))) }
    ensures fault { IfErr result (λ f. IfSome (T.remaining reader.old) (λ bytes. IsReplayFault bytes f)) }

    // What a refusal leaves with the writer.
    ensures untouched { IfErr result (λ f. f ≢ Fault.Write → Keeps (W.contents writer.old) (W.contents writer.new)) }
    ensures prefix { IfErr result (λ f. f ≡ Fault.Write → IfSome (T.remaining reader.old) (λ bytes. WritesPrefix bytes (W.contents writer.old) (W.contents writer.new))) }
{
    let report = read_report(alloc, reader)?;
    write(&report, writer).map_err(|_| Fault::Write)?;
    Ok(report)
}
