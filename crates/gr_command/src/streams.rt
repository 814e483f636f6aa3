//! The answer to a question about a launch whose streams come from readers; and the line of one word.

ghost use Rattle.std.specs.Prelude.{◌≡◌, ◌≢◌, IfErr, IfOk, IfSome, map};
ghost use Rattle.std.specs.Io.KnownBytes.{Keeps};
ghost use Rattle.gr_replay.specs.Each.{IsEachFault, all_known};
ghost use Rattle.gr_places.specs.Files.{IsShowFault};
ghost use Rattle.gr_places.specs.Sides.{sides_said};
ghost use Rattle.gr_timeline.specs.Racy.{IsRacyIn};
ghost use Rattle.gr_command.specs.Shown.{IsLine};
ghost use Rattle.gr_command.specs.Told.{IsShown, IsTold, ShowsPrefix};

use crate::question::{Question, Rendered};
use crate::questions::LeastRace;
use crate::writing::write_text;
use gr_model::event::Word;
use gr_places::sides::Sides;
use gr_record::fault::Fault;
use gr_replay::read_each;
use std::alloc::Allocator;
use std::io::{Read, Write};

/// Reads the streams of a launch, one from each reader, and answers the question.
///
/// # Errors
/// Those of `read_each`.
pub(crate) fn answer_of_streams<A: Allocator + Copy, Q: Question<A>, T: Read + Drop>(
    alloc: A,
    question: &Q,
    readers: Vec<T, A>,
    sides: &Sides<'_>,
) -> Result<Rendered<A>, Fault>
    ensures told { IfOk result (λ told. IsTold (Q.is_text question.now (sides_said sides.now)) (Q.is_found question.now) (all_known (map T.remaining readers.items)) told.text.items told.found) }
    ensures fault { IfErr result (λ f. IfSome (all_known (map T.remaining readers.items)) (λ inputs. IsEachFault inputs f)) }
    ensures reading { IfErr result (λ f. (f ≢ Fault.Write) × (f ≢ Fault.Threads)) }
{
    let launch = read_each(alloc, readers)?;
    let answer = question.answer(alloc, &launch, sides)?;
    Ok(Rendered {
        text: question.text(alloc, &answer, sides)?,
        found: question.found(&answer),
    })
}

/// Reads the streams of a launch, one from each reader, and writes the line of the word and nothing else. Gives whether the word has a
/// race.
///
/// # Errors
/// Those of `read_each`; `Write` if the writer fails, which then has a prefix of the line. If there is any other error, nothing is
/// written.
pub fn show_race<A: Allocator + Copy, T: Read + Drop, W: Write>(
    alloc: A,
    readers: Vec<T, A>,
    word: Word,
    writer: &mut W,
) -> Result<bool, Fault>
    ensures shown { IfOk result (λ found. IsShown (IsLine word) (IsRacyIn word) (all_known (map T.remaining readers.items)) found (W.contents writer.old) (W.contents writer.new)) }
    ensures fault { IfErr result (λ f. IfSome (all_known (map T.remaining readers.items)) (λ inputs. IsShowFault inputs f)) }

    // What a refusal leaves with the writer.
    ensures untouched { IfErr result (λ f. f ≢ Fault.Write → Keeps (W.contents writer.old) (W.contents writer.new)) }
    ensures prefix { IfErr result (λ f. f ≡ Fault.Write → ShowsPrefix (IsLine word) (all_known (map T.remaining readers.items)) (W.contents writer.old) (W.contents writer.new)) }
    ensures threads { IfErr result (λ f. f ≢ Fault.Threads) }
{
    let sides = Sides {
        places: &[],
        buffers: &[],
    };
    let told = answer_of_streams(alloc, &LeastRace(word), readers, &sides)?;
    write_text(writer, &told.text)?;
    Ok(told.found)
}
