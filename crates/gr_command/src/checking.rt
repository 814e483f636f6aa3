//! Checks of files.

ghost use Rattle.std.specs.Prelude.{◌≡◌, ◌≢◌, IfErr, IfOk, map};
ghost use Rattle.std.specs.Fn.{FnReturnsAt};
ghost use Rattle.std.specs.Io.KnownBytes.{Keeps};
ghost use Rattle.gr_places.specs.Checked.{IsCheckFileFault};
ghost use Rattle.gr_command.specs.Answers.{ChecksPrefixOfFiles, IsCheckedOfFiles};

use crate::writing::write_text;
use gr_arguments::request::Arguments;
use gr_json::check::check_json;
use gr_model::memory::Memory;
use gr_places::checking::{Checked, check_files};
use gr_plain::check::check_text;
use gr_record::fault::Fault;
use std::alloc::Global;
use std::io::{self, Read, Write};

/// The outcome of a check, as text or as JSON.
fn text_of(alloc: Global, checked: &Checked<'_>, json: bool) -> Result<Vec<u8>, Memory> {
    if json {
        check_json(alloc, checked)
    } else {
        check_text(alloc, checked)
    }
}

/// Checks files, and writes the outcome, as text or as JSON, and nothing else. Gives whether they are the files of a launch.
///
/// # Errors
/// Those of `check_files`, and `Memory` if there is no memory for the text: nothing is then written. `Write` if the writer fails,
/// which then has a prefix of the text.
pub fn write_check<T: Read + Drop, O: Fn(&str) -> io::Result<T>, W: Write>(
    alloc: Global,
    arguments: &Arguments<'_>,
    opener: O,
    writer: &mut W,
) -> Result<bool, Fault>
    requires { O.IsAlwaysCallable opener }
    ensures checked { IfOk result (λ accepted. IsCheckedOfFiles T.remaining (FnReturnsAt O.Fn opener) (W.contents writer.old) (W.contents writer.new) (map (λ s. s.now) arguments.now.files.items) accepted) }
    ensures fault { IfErr result (λ f. IsCheckFileFault T.remaining (FnReturnsAt O.Fn opener) (map (λ s. s.now) arguments.now.files.items) f) }
    ensures untouched { IfErr result (λ f. f ≢ Fault.Write → Keeps (W.contents writer.old) (W.contents writer.new)) }
    ensures prefix { IfErr result (λ f. f ≡ Fault.Write → ChecksPrefixOfFiles T.remaining (FnReturnsAt O.Fn opener) (W.contents writer.old) (W.contents writer.new) (map (λ s. s.now) arguments.now.files.items)) }
{
    let checked = check_files(alloc, arguments.files.as_slice(), opener)?;
    let text = text_of(alloc, &checked, arguments.json)?;
    match write_text(writer, &text) {
        Ok(()) => Ok(checked.is_accepted()),
        Err(_) => Err(Fault::Write),
    }
}
