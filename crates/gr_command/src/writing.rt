//! Writes a whole text.

ghost use Rattle.std.specs.Prelude.{◌≡◌, IfErr, OnErr, OnOk};
ghost use Rattle.std.specs.Io.KnownBytes.{Appends};
ghost use Rattle.gr_report.specs.Putting.{AppendsPrefix};

use gr_record::fault::Fault;
use gr_report::putting::{finish, put};
use std::io::Write;

/// Writes a text, and flushes.
///
/// # Errors
/// `Write` if the writer fails, which has then taken a prefix of the text.
pub fn write_text<W: Write>(writer: &mut W, text: &[u8]) -> Result<(), Fault>
    ensures whole { OnOk result (Appends (W.contents writer.old) (W.contents writer.new) text.now) }
    ensures prefix { OnErr result (AppendsPrefix (W.contents writer.old) (W.contents writer.new) text.now) }
    ensures fault { IfErr result (λ f. f ≡ Fault.Write) }
{
    if put(writer, text).is_ok() && finish(writer).is_ok() {
        Ok(())
    } else {
        Err(Fault::Write)
    }
}
