//! Text to a writer, in pieces, with no memory taken.
//!
//! What was written is always a prefix of the text, and all of it where no fault is returned.

ghost use Rattle.std.specs.Prelude.{◌≢◌, ℕ, List, [], OnErr, decimal};
ghost use Rattle.std.specs.List.{flat_map};
ghost use Rattle.std.specs.Io.KnownBytes.{Keeps};
ghost use Rattle.gr_report.specs.Putting.{Puts, ended, field};

use itoa::{Buffer, Integer};
use std::io::Write;
use thiserror::Error;

/// The writer failed: it returned an error, or took none of the bytes that it was given.
#[derive(Clone, Copy, Debug, PartialEq, Eq, Error)]
#[error("write fault")]
pub struct WriteFault;

/// Writes the bytes.
///
/// # Errors
/// `WriteFault` if the writer fails, which has then taken a prefix of the bytes. It is not returned if there are no
/// bytes.
pub fn put<W: Write>(writer: &mut W, bytes: &[u8]) -> Result<(), WriteFault>
    ensures puts { Puts (W.contents writer.old) (W.contents writer.new) result bytes.now }
    ensures some { OnErr result (bytes.now ≢ []) }
{
    let mut rest = bytes;
    while !rest.is_empty() {
        match writer.write(rest) {
            Err(_) | Ok(0) => return Err(WriteFault),
            Ok(n) => rest = &rest[n..],
        }
    }
    Ok(())
}

/// Writes the bytes of a word, and a number after them.
///
/// # Errors
/// `WriteFault` if the writer fails, which has then taken a prefix of these bytes.
pub fn put_field<W: Write, N: Integer>(writer: &mut W, word: &[u8], n: N) -> Result<(), WriteFault>
    ensures { Puts (W.contents writer.old) (W.contents writer.new) result (field word.now (N.text n)) }
{
    put(writer, word)?;
    let mut buffer = Buffer::new();
    put(writer, buffer.format(n).as_bytes())
}

/// What has a text of its own.
pub(crate) trait Row {
    // the text
    ghost line: { Self → List ℕ };

    /// Writes the text.
    fn put<W: Write>(&self, writer: &mut W) -> Result<(), WriteFault>
        ensures { Puts (W.contents writer.old) (W.contents writer.new) result (line self.now) };
}

/// A word, and a number after it.
impl Row for (&str, u64) {
    ghost line = { λ f. field f.0.now (decimal f.1) };

    fn put<W: Write>(&self, writer: &mut W) -> Result<(), WriteFault> {
        put_field(writer, self.0.as_bytes(), self.1)
    }
}

/// Writes the text of each row.
pub(crate) fn put_rows<T: Row, W: Write>(writer: &mut W, rows: &[T]) -> Result<(), WriteFault>
    ensures { Puts (W.contents writer.old) (W.contents writer.new) result (flat_map T.line rows.now) }
{
    for row in rows {
        row.put(writer)?;
    }
    Ok(())
}

/// Writes words, each with a number after it, and what ends the line.
pub(crate) fn put_line<W: Write>(
    writer: &mut W,
    fields: &[(&str, u64)],
    end: &[u8],
) -> Result<(), WriteFault>
    ensures { Puts (W.contents writer.old) (W.contents writer.new) result (ended (λ f. field f.0.now (decimal f.1)) fields.now end.now) }
{
    put_rows(writer, fields)?;
    put(writer, end)
}

/// Flushes after a text that was written.
///
/// # Errors
/// `WriteFault` if the writer returns an error.
pub fn finish<W: Write>(writer: &mut W) -> Result<(), WriteFault>
    ensures { Keeps (W.contents writer.old) (W.contents writer.new) }
{
    writer.flush().map_err(|_| WriteFault)
}
