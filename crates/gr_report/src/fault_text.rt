//! The line that says why a run failed.

ghost use Rattle.std.specs.Prelude.{◌++◌, OnOk, OnErr, codes};
ghost use Rattle.std.specs.Io.KnownBytes.{Appends};
ghost use Rattle.gr_report.specs.Putting.{Puts, AppendsPrefix};
ghost use Rattle.gr_report.specs.FaultText.{between, error_text, shape_text, fault_text, fault_line};

use crate::putting::{WriteFault, finish, put, put_field, put_line};
use gr_model::shape::ShapeError;
use gr_record::error::RecordError;
use gr_record::fault::Fault;
use std::io::Write;

fn put_error<W: Write>(writer: &mut W, error: RecordError) -> Result<(), WriteFault>
    ensures { Puts (W.contents writer.old) (W.contents writer.new) result (error_text error) }
{
    match error {
        RecordError::BadMagic => put(writer, b"bad magic"),
        RecordError::BadHeader => put(writer, b"bad header"),
        RecordError::BadKind => put(writer, b"bad kind"),
        RecordError::BadField(byte) => put_field(writer, b"bad field ", byte),
        RecordError::BadOrder => put(writer, b"bad order"),
        RecordError::BadName => put(writer, b"bad name"),
        RecordError::UnknownItem => put(writer, b"unknown item"),
        RecordError::AfterEnd => put(writer, b"after end"),
        RecordError::Truncated => put(writer, b"truncated"),
        RecordError::TooManyRecords => put(writer, b"too many records"),
        RecordError::Memory => put(writer, b"out of memory"),
    }
}

fn put_stream<W: Write>(writer: &mut W, place: u64, error: RecordError) -> Result<(), WriteFault>
    ensures { Puts (W.contents writer.old) (W.contents writer.new) result (between (codes "stream ") place (codes ": ") ++ error_text error) }
{
    put_line(writer, &[("stream ", place)], b": ")?;
    put_error(writer, error)
}

fn put_shape<W: Write>(writer: &mut W, error: ShapeError) -> Result<(), WriteFault>
    ensures { Puts (W.contents writer.old) (W.contents writer.new) result (shape_text error) }
{
    match error {
        ShapeError::NoGroups => put(writer, b"shape: no groups"),
        ShapeError::TooManyGroups => put(writer, b"shape: too many groups"),
        ShapeError::BadItems(group) => put_field(writer, b"shape: bad items in group ", group),
        ShapeError::TooManyItems => put(writer, b"shape: too many items"),
    }
}

fn put_text<W: Write>(writer: &mut W, fault: Fault) -> Result<(), WriteFault>
    ensures { Puts (W.contents writer.old) (W.contents writer.new) result (fault_text fault) }
{
    match fault {
        Fault::Stream(place, error) => put_stream(writer, place, error),
        Fault::SameGroup(place) => put_line(writer, &[("stream ", place)], b": group given twice"),
        Fault::OtherLaunch(place) => put_line(writer, &[("stream ", place)], b": other launch"),
        Fault::MissingGroup(group) => put_line(
            writer,
            &[("group ", u64::from(group))],
            b" missing",
        ),
        Fault::Shape(error) => put_shape(writer, error),
        Fault::BadLine(line) => put_line(writer, &[("line ", line)], b": bad line"),
        Fault::NoEnd => put(writer, b"no end"),
        Fault::LongStream(line) => put_line(writer, &[("line ", line)], b": too many records"),
        Fault::Read => put(writer, b"read fault"),
        Fault::Write => put(writer, b"write fault"),
        Fault::Memory => put(writer, b"out of memory"),
        Fault::Threads => put(writer, b"no thread"),
    }
}

/// Writes the line of the fault (docs/OUTPUT.md, "Lines of faults"). It takes no memory.
///
/// # Errors
/// `WriteFault` if the writer fails, which has then taken a prefix of the line.
pub fn put_fault<W: Write>(writer: &mut W, fault: Fault) -> Result<(), WriteFault>
    ensures { Puts (W.contents writer.old) (W.contents writer.new) result (fault_line fault) }
{
    put(writer, b"gpurace: ")?;
    put_text(writer, fault)?;
    put(writer, b"\n")
}

/// Writes the line of the fault as `put_fault` does, and flushes. It takes no memory.
///
/// # Errors
/// `WriteFault` if the writer fails, which has then taken a prefix of the line.
pub fn write_fault<W: Write>(fault: &Fault, writer: &mut W) -> Result<(), WriteFault>
    ensures whole { OnOk result (Appends (W.contents writer.old) (W.contents writer.new) (fault_line fault.now)) }
    ensures prefix { OnErr result (AppendsPrefix (W.contents writer.old) (W.contents writer.new) (fault_line fault.now)) }
{
    put_fault(writer, *fault)?;
    finish(writer)
}
