//! The answer to a question about a launch whose streams are in files, with what side files say about it.

ghost use Rattle.std.specs.Prelude.{◌≡◌, ◌≢◌, IfErr, IfOk, map};
ghost use Rattle.std.specs.Fn.{FnReturnsAt};
ghost use Rattle.std.specs.Io.KnownBytes.{Keeps};
ghost use Rattle.gr_record.specs.declared.fault.Fault.TheVariants as faults;
ghost use Rattle.gr_places.specs.Opening.{HoldsOfAllFiles, IsSidesFault, side_names};
ghost use Rattle.gr_command.specs.Told.{IsShown, IsTold, ShowsPrefix};
ghost use Rattle.gr_places.specs.declared.sides_fault.SidesFault.TheVariants.{Run as ARun};

use crate::question::{Question, Rendered};
use crate::streams::answer_of_streams;
use crate::writing::write_text;
use gr_places::buffers::buffers_of;
use gr_places::files::{Opened, SideNames, bytes_of, open_files};
use gr_places::places::places_of;
use gr_places::sides::Sides;
use gr_places::sides_fault::SidesFault;
use std::alloc::Allocator;
use std::io::{self, Read, Write};

/// Opens the side files and the files of these names, reads the side files and then a stream from each file, and answers the
/// question.
///
/// # Errors
/// Those of `tell_files`, except the writer's.
fn answer_of_files<'a, A, Q, T, O>(
    alloc: A,
    question: &Q,
    sides: &SideNames<'a>,
    names: &[&'a str],
    opener: O,
) -> Result<Rendered<A>, SidesFault>
where
    A: Allocator + Copy,
    Q: Question<A>,
    T: Read + Drop,
    O: Fn(&str) -> io::Result<T>,
    requires { O.IsAlwaysCallable opener }
    ensures told { IfOk result (λ told. HoldsOfAllFiles T.remaining (FnReturnsAt O.Fn opener) (side_names sides.now) (map (λ s. s.now) names.now) (λ known said. IsTold (Q.is_text question.now said) (Q.is_found question.now) known told.text.items told.found)) }
    ensures fault { IfErr result (λ f. IsSidesFault T.remaining (FnReturnsAt O.Fn opener) (side_names sides.now) (map (λ s. s.now) names.now) f) }
    ensures reading { IfErr result (λ f. (f ≢ ARun faults.Write) × (f ≢ ARun faults.Threads)) }
{
    let Opened {
        places,
        buffers,
        streams,
    } = open_files(alloc, sides, names, opener)?;
    let place_bytes = bytes_of(alloc, places)?;
    let places = places_of(alloc, &place_bytes)?;
    let buffer_bytes = bytes_of(alloc, buffers)?;
    let buffers = buffers_of(alloc, &buffer_bytes)?;
    let said = Sides {
        places: &places,
        buffers: &buffers,
    };
    Ok(answer_of_streams(alloc, question, streams, &said)?)
}

/// Opens the side files and the files of these names, reads the side files and then a stream from each file, and writes the text
/// that answers the question and nothing else. Gives whether what the question looks for is found.
///
/// # Errors
/// `Run` with the fault of the first file that can't be opened, in the order places, buffers, streams; nothing is read before all are
/// open. Then `Places` and `Buffers` with the first line that is out of form, the places first; `Run` with the fault of a side file
/// that can't be read, at its turn. Then `Run` with the faults of `read_each`, or with `Memory` if there is no memory for the answer.
/// Nothing is written before that. Last, `Run` with `Write` if the writer fails; the writer then has a prefix of the text.
pub fn tell_files<'a, A, Q, T, O, W>(
    alloc: A,
    question: &Q,
    sides: &SideNames<'a>,
    names: &[&'a str],
    opener: O,
    writer: &mut W,
) -> Result<bool, SidesFault>
where
    A: Allocator + Copy,
    Q: Question<A>,
    T: Read + Drop,
    O: Fn(&str) -> io::Result<T>,
    W: Write,
    requires { O.IsAlwaysCallable opener }
    ensures shown { IfOk result (λ found. HoldsOfAllFiles T.remaining (FnReturnsAt O.Fn opener) (side_names sides.now) (map (λ s. s.now) names.now) (λ known said. IsShown (Q.is_text question.now said) (Q.is_found question.now) known found (W.contents writer.old) (W.contents writer.new))) }
    ensures fault { IfErr result (λ f. IsSidesFault T.remaining (FnReturnsAt O.Fn opener) (side_names sides.now) (map (λ s. s.now) names.now) f) }
    ensures untouched { IfErr result (λ f. f ≢ ARun faults.Write → Keeps (W.contents writer.old) (W.contents writer.new)) }
    ensures prefix { IfErr result (λ f. f ≡ ARun faults.Write → HoldsOfAllFiles T.remaining (FnReturnsAt O.Fn opener) (side_names sides.now) (map (λ s. s.now) names.now) (λ known said. ShowsPrefix (Q.is_text question.now said) known (W.contents writer.old) (W.contents writer.new))) }
    ensures threads { IfErr result (λ f. f ≢ ARun faults.Threads) }
{
    let told = answer_of_files(alloc, question, sides, names, opener)?;
    write_text(writer, &told.text)?;
    Ok(told.found)
}
