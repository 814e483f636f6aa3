//! From a reader to a writer.

ghost use Rattle.std.specs.Prelude.{◌≡◌, ◌≢◌, IfErr, IfSome, OnOk};
ghost use Rattle.std.specs.Io.KnownBytes.{Appends, Keeps};
ghost use Rattle.gr_record.specs.Prelude.{Fails, IsOutside};
ghost use Rattle.gr_record.specs.declared.fault.Fault.TheVariants as faults;
ghost use Rattle.gr_report.specs.Putting.{AppendsPrefix};
ghost use Rattle.gr_text.specs.Prelude.{packed, dumped, upgraded, text_before_fault};
ghost use Rattle.gr_text.specs.Writes.{Writes, WritesPrefix};

use crate::forming::{Form, formed_bytes};
use crate::packing::pack_text;
use crate::partial::partial_text;
use gr_record::fault::Fault;
use gr_record::input::read_all;
use gr_report::putting::{finish, put};
use std::alloc::Allocator;
use std::io::{Read, Write};

/// Writes the bytes, and flushes.
fn write_all<W: Write>(writer: &mut W, bytes: &[u8]) -> Result<(), Fault>
    ensures whole { OnOk result (Appends (W.contents writer.old) (W.contents writer.new) bytes.now) }
    ensures prefix { IfErr result (λ _. AppendsPrefix (W.contents writer.old) (W.contents writer.new) bytes.now) }
    ensures fault { IfErr result (λ f. f ≡ faults.Write) }
{
    put(writer, bytes).map_err(|_| Fault::Write)?;
    finish(writer).map_err(|_| Fault::Write)
}

/// Reads a text to its end, and writes the bytes of its streams, one stream after another.
///
/// # Errors
/// Of the first line at fault, with its number from 1: `BadLine` if its place needs another line, else `LongStream` if
/// it is one record more than a stream may have. `NoEnd` if no line is at fault and the text is over inside a stream.
/// `Read` if the reader fails, or does not come to its end within 4,294,967,296 calls; `Memory` if an allocation is
/// refused. `Write` if the writer fails, which has then taken a prefix of the bytes. At every other error nothing is
/// written.
///
/// # Example
/// ```rust
/// let mut text = "group 0 items 1 launch 7\n0 w g 16\nend\n".as_bytes();
/// let mut stream = Vec::new(rt.alloc());
/// assert_eq!(rt; pack(rt.alloc(), &mut text, &mut stream), Ok(()));
/// assert_eq!(rt; stream.len(), 52);
/// let mut end_is_missing = "group 0 items 1 launch 7\n0 w g 16\n".as_bytes();
/// assert_eq!(rt; pack(rt.alloc(), &mut end_is_missing, &mut stream), Err(Fault::NoEnd));
/// ```
pub fn pack<A: Allocator + Copy, T: Read, W: Write>(
    alloc: A,
    reader: &mut T,
    writer: &mut W,
) -> Result<(), Fault>
    ensures whole { OnOk result (IfSome (T.remaining reader.old) (λ text. Writes (packed text) (W.contents writer.old) (W.contents writer.new))) }
    ensures fault { IfErr result (λ f. f ≢ faults.Write → IfSome (T.remaining reader.old) (λ text. Fails f (packed text))) }

    // What a refusal leaves with the writer.
    ensures untouched { IfErr result (λ f. f ≢ faults.Write → Keeps (W.contents writer.old) (W.contents writer.new)) }
    ensures prefix { IfErr result (λ f. f ≡ faults.Write → IfSome (T.remaining reader.old) (λ text. WritesPrefix (packed text) (W.contents writer.old) (W.contents writer.new))) }
{
    let text = read_all(alloc, reader)?;
    let bytes = pack_text(alloc, text.as_slice())?;
    write_all(writer, bytes.as_slice())
}

/// Reads streams to their end, one after another, and writes their text.
///
/// # Errors
/// `Stream` with the place of the first stream that has a fault, from 0, and that fault. `Read` if the reader fails, or
/// does not come to its end within 4,294,967,296 calls; `Memory` if an allocation is refused. `Write` if the writer
/// fails, which has then taken a prefix of the text. At every other error nothing is written.
pub fn dump<A: Allocator + Copy, T: Read, W: Write>(
    alloc: A,
    reader: &mut T,
    writer: &mut W,
) -> Result<(), Fault>
    ensures whole { OnOk result (IfSome (T.remaining reader.old) (λ bytes. Writes (dumped bytes) (W.contents writer.old) (W.contents writer.new))) }
    ensures fault { IfErr result (λ f. f ≢ faults.Write → IfSome (T.remaining reader.old) (λ bytes. Fails f (dumped bytes))) }

    // What a refusal leaves with the writer.
    ensures untouched { IfErr result (λ f. f ≢ faults.Write → Keeps (W.contents writer.old) (W.contents writer.new)) }
    ensures prefix { IfErr result (λ f. f ≡ faults.Write → IfSome (T.remaining reader.old) (λ bytes. WritesPrefix (dumped bytes) (W.contents writer.old) (W.contents writer.new))) }
{
    let bytes = read_all(alloc, reader)?;
    let text = formed_bytes(alloc, Form::Text, bytes.as_slice())?;
    write_all(writer, text.as_slice())
}

/// Reads streams to their end, one after another, and writes their text; of streams that are refused the text of the
/// headers and records before the first fault.
///
/// # Errors
/// Those of `dump`. At `Stream` the text before the fault has been written. `Write` if the writer fails,
/// which has then taken a prefix of the text. At `Read` and `Memory` nothing is written.
#[tactic(auto, using(crate::proofs::PartialLaws::whole_streams_stand_whole))]
pub fn dump_partial<A: Allocator + Copy, T: Read, W: Write>(
    alloc: A,
    reader: &mut T,
    writer: &mut W,
) -> Result<(), Fault>
    ensures whole { OnOk result (IfSome (T.remaining reader.old) (λ bytes. Writes (dumped bytes) (W.contents writer.old) (W.contents writer.new))) }
    ensures fault { IfErr result (λ f. f ≢ faults.Write → IfSome (T.remaining reader.old) (λ bytes. Fails f (dumped bytes))) }

    // What a fault leaves with the writer.
    ensures partial { IfErr result (λ f. f ≢ faults.Write → ¬ IsOutside f → IfSome (T.remaining reader.old) (λ bytes. Appends (W.contents writer.old) (W.contents writer.new) (text_before_fault bytes))) }
    ensures untouched { IfErr result (λ f. IsOutside f → Keeps (W.contents writer.old) (W.contents writer.new)) }
    ensures prefix { IfErr result (λ f. f ≡ faults.Write → IfSome (T.remaining reader.old) (λ bytes. AppendsPrefix (W.contents writer.old) (W.contents writer.new) (text_before_fault bytes))) }
{
    let bytes = read_all(alloc, reader)?;
    let (text, fault) = partial_text(alloc, bytes.as_slice())?;
    write_all(writer, text.as_slice())?;
    match fault {
        None => Ok(()),
        Some(fault) => Err(fault),
    }
}

/// Reads streams to their end, one after another, and writes the same streams, those of version 1 in version 2: of the
/// same groups, items and launches, and with the same records. Streams of other versions are written as they are.
///
/// # Errors
/// `Stream` with the place of the first stream that has a fault, from 0, and that fault. `Read` if the reader fails, or
/// does not come to its end within 4,294,967,296 calls; `Memory` if an allocation is refused. `Write` if the writer
/// fails, which has then taken a prefix of the bytes. At every other error nothing is written.
pub fn upgrade<A: Allocator + Copy, T: Read, W: Write>(
    alloc: A,
    reader: &mut T,
    writer: &mut W,
) -> Result<(), Fault>
    ensures whole { OnOk result (IfSome (T.remaining reader.old) (λ bytes. Writes (upgraded bytes) (W.contents writer.old) (W.contents writer.new))) }
    ensures fault { IfErr result (λ f. f ≢ faults.Write → IfSome (T.remaining reader.old) (λ bytes. Fails f (upgraded bytes))) }

    // What a refusal leaves with the writer.
    ensures untouched { IfErr result (λ f. f ≢ faults.Write → Keeps (W.contents writer.old) (W.contents writer.new)) }
    ensures prefix { IfErr result (λ f. f ≡ faults.Write → IfSome (T.remaining reader.old) (λ bytes. WritesPrefix (upgraded bytes) (W.contents writer.old) (W.contents writer.new))) }
{
    let bytes = read_all(alloc, reader)?;
    let long = formed_bytes(alloc, Form::Long, bytes.as_slice())?;
    write_all(writer, long.as_slice())
}
