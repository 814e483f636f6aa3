//! The text of a report, line by line.

ghost use Rattle.std.specs.Prelude.{◌≡◌, OnOk, OnErr};
ghost use Rattle.std.specs.Io.KnownBytes.{Appends};
ghost use Rattle.gr_report.specs.Putting.{Puts, AppendsPrefix};
ghost use Rattle.gr_report.specs.Whole.{whole_of};
ghost use Rattle.gr_report.specs.ReportText.{head_text, cut_line, race_line, divergence_line, unmatched_line, end_line, report_text, divergence_end, unmatched_end};

use crate::putting::{Row, WriteFault, finish, put_line, put_rows};
use crate::report::Report;
use gr_model::event::Word;
use gr_model::report::{AcquireCause, Divergence, DivergenceCause, Unmatched};
use std::alloc::Allocator;
use std::io::Write;

fn put_head<A: Allocator, W: Write>(writer: &mut W, report: &Report<A>) -> Result<(), WriteFault>
    ensures { Puts (W.contents writer.old) (W.contents writer.new) result (head_text (whole_of report.now)) }
{
    let fields = [
        ("gpurace 1\ngroups ", u64::from(report.groups)),
        (" items ", u64::from(report.items)),
        (" records ", report.records),
    ];
    put_line(writer, &fields, b"\n")
}

/// A group whose stream was cut.
impl Row for u16 {
    ghost line = { cut_line };

    fn put<W: Write>(&self, writer: &mut W) -> Result<(), WriteFault> {
        put_line(writer, &[("cut ", u64::from(*self))], b"\n")
    }
}

impl Row for Word {
    ghost line = { race_line };

    fn put<W: Write>(&self, writer: &mut W) -> Result<(), WriteFault> {
        match *self {
            Word::Global(number) => put_line(writer, &[("race global ", u64::from(number))], b"\n"),
            Word::Local(group, number) => {
                let fields = [("race local ", u64::from(group)), (" ", u64::from(number))];
                put_line(writer, &fields, b"\n")
            }
        }
    }
}

/// The end of a divergence's line: its cause.
fn end_of_divergence(cause: DivergenceCause) -> &'static [u8]
    ensures { result.now ≡ divergence_end cause }
{
    match cause {
        DivergenceCause::Missing => b" missing\n",
        DivergenceCause::Site => b" site\n",
        DivergenceCause::Flags => b" flags\n",
    }
}

impl Row for Divergence {
    ghost line = { divergence_line };

    fn put<W: Write>(&self, writer: &mut W) -> Result<(), WriteFault> {
        let fields = [
            ("diverge ", u64::from(self.group)),
            (" ", u64::from(self.instance)),
        ];
        put_line(writer, &fields, end_of_divergence(self.cause))
    }
}

/// The end of an unmatched acquire's line: its cause.
fn end_of_unmatched(cause: AcquireCause) -> &'static [u8]
    ensures { result.now ≡ unmatched_end cause }
{
    match cause {
        AcquireCause::Absent => b" absent\n",
        AcquireCause::OtherWord => b" otherword\n",
        AcquireCause::Behind => b" behind\n",
    }
}

impl Row for Unmatched {
    ghost line = { unmatched_line };

    fn put<W: Write>(&self, writer: &mut W) -> Result<(), WriteFault> {
        let fields = [
            ("unmatched ", u64::from(self.event.at.group)),
            (" ", u64::from(self.event.at.item)),
            (" ", u64::from(self.event.index)),
        ];
        put_line(writer, &fields, end_of_unmatched(self.cause))
    }
}

/// The last line: how many lines of each kind there are, and how many events are held.
fn put_end<A: Allocator, W: Write>(writer: &mut W, report: &Report<A>) -> Result<(), WriteFault>
    ensures { Puts (W.contents writer.old) (W.contents writer.new) result (end_line (whole_of report.now)) }
{
    let fields = [
        ("end races ", report.races.as_slice().len() as u64),
        (" diverge ", report.divergences.as_slice().len() as u64),
        (" unmatched ", report.unmatched.as_slice().len() as u64),
        (" held ", report.held),
    ];
    put_line(writer, &fields, b"\n")
}

fn put_all<A: Allocator, W: Write>(writer: &mut W, report: &Report<A>) -> Result<(), WriteFault>
    ensures { Puts (W.contents writer.old) (W.contents writer.new) result (report_text (whole_of report.now)) }
{
    put_head(writer, report)?;
    put_rows(writer, report.cut.as_slice())?;
    put_rows(writer, report.races.as_slice())?;
    put_rows(writer, report.divergences.as_slice())?;
    put_rows(writer, report.unmatched.as_slice())?;
    put_end(writer, report)
}

/// Writes the text of the report (docs/OUTPUT.md, "The report"), and flushes. It takes no memory.
///
/// # Errors
/// `WriteFault` if the writer fails, which has then taken a prefix of the text.
pub fn write<A: Allocator, W: Write>(report: &Report<A>, writer: &mut W) -> Result<(), WriteFault>
    ensures whole { OnOk result (Appends (W.contents writer.old) (W.contents writer.new) (report_text (whole_of report.now))) }
    ensures prefix { OnErr result (AppendsPrefix (W.contents writer.old) (W.contents writer.new) (report_text (whole_of report.now))) }
{
    put_all(writer, report)?;
    finish(writer)
}
