//! Why there is no answer about a launch with side files, and the line that says so.

ghost use Rattle.std.specs.Prelude.{◌≡◌, OnErr, OnOk};
ghost use Rattle.std.specs.Io.KnownBytes.{Appends};
ghost use Rattle.gr_report.specs.Putting.{AppendsPrefix, Puts};
ghost use Rattle.gr_places.specs.FaultText as spec;
ghost use Rattle.gr_places.specs.declared.sides_fault.SidesFault.TheVariants.{Run as ARun};
ghost use Rattle.gr_record.specs.declared.fault.Fault.TheVariants as faults;

use gr_model::memory::Memory;
use gr_record::fault::Fault;
use gr_report::putting::{WriteFault, finish, put, put_field};
use gr_report::write_fault;
use std::io::Write;

/// Why there is no answer about a launch with side files. Lines are counted from 1.
#[derive(Clone, Copy, Debug, PartialEq, Eq)]
pub enum SidesFault {
    /// The streams are no launch, reading or writing fails, or memory runs out.
    Run(Fault),
    /// The line with this number does not have the form of a line of places.
    Places(u64),
    /// The line with this number does not have the form of a line of buffers.
    Buffers(u64),
}

impl From<Fault> for SidesFault {
    ghost from_gives = { λ fault f. f ≡ ARun fault };

    fn from(fault: Fault) -> SidesFault {
        SidesFault::Run(fault)
    }
}

impl From<Memory> for SidesFault {
    ghost from_gives = { λ _ f. f ≡ ARun faults.Memory };

    fn from(_error: Memory) -> SidesFault {
        SidesFault::Run(Fault::Memory)
    }
}

fn write_bad_line<W: Write>(writer: &mut W, before: &[u8], line: u64) -> Result<(), WriteFault>
    ensures { Puts (W.contents writer.old) (W.contents writer.new) result (spec.bad_line before.now line) }
{
    put_field(writer, before, line)?;
    put(writer, b": bad line\n")?;
    finish(writer)
}

/// Writes the line of the fault (docs/OUTPUT.md, "Lines of faults"), and flushes. It takes no memory.
///
/// # Errors
/// `WriteFault` if the writer fails, which has then taken a prefix of the line.
pub fn write_sides_fault<W: Write>(fault: &SidesFault, writer: &mut W) -> Result<(), WriteFault>
    ensures whole { OnOk result (Appends (W.contents writer.old) (W.contents writer.new) (spec.sides_fault_line fault.now)) }
    ensures prefix { OnErr result (AppendsPrefix (W.contents writer.old) (W.contents writer.new) (spec.sides_fault_line fault.now)) }
{
    match fault {
        SidesFault::Run(fault) => write_fault(fault, writer),
        SidesFault::Places(line) => write_bad_line(writer, b"gpurace: places: line ", *line),
        SidesFault::Buffers(line) => write_bad_line(writer, b"gpurace: buffers: line ", *line),
    }
}
