//! A run of the program, over values.

ghost use Rattle.std.specs.Prelude.{◌≡◌, ◌⊎◌, ◌≤◌, Err, IfOk, Ok, map};
ghost use Rattle.std.specs.Fn.{FnReturnsAt};
ghost use Rattle.std.specs.Io.KnownBytes.{Keeps};
ghost use Rattle.clap.specs.Words.{kind_of};
ghost use Rattle.gr_report.specs.Whole.{whole_of};
ghost use Rattle.gr_places.specs.declared.sides_fault.SidesFault.TheVariants.{Run as OfRun};
ghost use Rattle.gr_arguments.specs.Asked.{Asked, AsksTo, inquiry_of};
ghost use Rattle.gr_arguments.specs.Commands.{AreHelp, AreWrong, IsHelp, IsWrongUsage, faults};
ghost use Rattle.gr_command.specs.Answers.{IsAnswerOf, IsAnswerTo, IsAnswered, IsDone, in_form};
ghost use Rattle.gr_command.specs.Outcomes.{HasStatus};
ghost use Rattle.gr_command.specs.Statuses.{check_status, race_status, IsReportStatus};

use crate::checking::write_check;
use crate::files::tell_files;
use crate::question::{InJson, JsonQuestion, Question};
use crate::questions::{HeldEvent, LeastRace, LongRace, Races, WordHistory};
use crate::reporting::{replay_json, run_files};
use crate::status::{FAILED, NOTHING, USAGE, status_of_check, status_of_race, status_of_report};
use clap::Error;
use clap::error::ErrorKind;
use gr_arguments::command::{EXPLAIN_USAGE, HISTORY_USAGE, RACES_USAGE, RUN_USAGE, WHY_HELD_USAGE};
use gr_arguments::request::{Arguments, Misuse, Query, Request, Task};
use gr_arguments::request_of;
use gr_places::files::SideNames;
use gr_places::sides_fault::SidesFault;
use gr_record::fault::Fault;
use gr_replay::replay;
use gr_report::report::Report;
use gr_text::{dump, dump_partial, pack, upgrade};
use std::alloc::Global;
use std::convert::AsStr;
use std::io::{self, Read, Write};
use std::sync::Wait;
use std::thread::Threads;
use std::time::Clock;

const NO_WORD: &str = "\
SPACE and WORD name no word of memory: SPACE is g, or l with a group from 0 to 65534 as in l3, and WORD is a number \
below 4294967296 in decimal digits";

const NO_EVENT: &str = "\
GROUP, ITEM and INDEX name no event: GROUP and ITEM are numbers below 65536 and INDEX is one below 4294967296, in \
decimal digits";

/// Writes help to standard output, or what is wrong with the words to standard error, and gives the status.
///
/// # Errors
/// `Memory`, before anything is written; `Write`.
fn write_usage<W: Write, E: Write>(
    error: &Error,
    writer: &mut W,
    errors: &mut E,
) -> Result<u8, SidesFault>
    ensures known { IfOk result (λ status. status ≤ FAILED) }
    ensures memory { kind_of error.now ≡ ErrorKind.OutOfMemory → (result ≡ Err (OfRun Fault.Memory)) × Keeps (W.contents writer.old) (W.contents writer.new) × Keeps (E.contents errors.old) (E.contents errors.new) }
    ensures wrong { IsWrongUsage (kind_of error.now) → (result ≡ Ok USAGE) × Keeps (W.contents writer.old) (W.contents writer.new) }
    ensures help { IsHelp (kind_of error.now) → (result ≡ Ok NOTHING) ⊎ (result ≡ Err (OfRun Fault.Write)) }
{
    if error.kind() == ErrorKind::OutOfMemory {
        return Err(SidesFault::Run(Fault::Memory));
    }
    if error.use_stderr() {
        let _ = write!(errors, "{error}");
        return Ok(USAGE);
    }
    match write!(writer, "{error}").and_then(|()| writer.flush()) {
        Ok(()) => Ok(NOTHING),
        Err(_) => Err(SidesFault::Run(Fault::Write)),
    }
}

/// The status of a report.
fn reported(outcome: Result<Report, Fault>) -> Result<u8, SidesFault>
    ensures { HasStatus (λ report. IsReportStatus (whole_of report)) OfRun outcome result }
{
    match outcome {
        Ok(report) => Ok(status_of_report(&report)),
        Err(fault) => Err(SidesFault::Run(fault)),
    }
}

/// The status of a rewriting.
fn rewritten(outcome: Result<(), Fault>) -> Result<u8, SidesFault>
    ensures { HasStatus (λ done status. status ≡ NOTHING) OfRun outcome result }
{
    outcome?;
    Ok(NOTHING)
}

/// Does the task, and gives the exit status.
///
/// # Errors
/// Those of the task.
fn perform<R: Read, W: Write>(
    alloc: Global,
    task: Task,
    reader: &mut R,
    writer: &mut W,
) -> Result<u8, SidesFault>
    ensures { IsAnswerOf (R.remaining reader.old) (W.contents writer.old) (W.contents writer.new) result task }
{
    match task {
        Task::Replay { json: false } => reported(replay(alloc, reader, writer)),
        Task::Replay { json: true } => reported(replay_json(alloc, reader, writer)),
        Task::Pack => rewritten(pack(alloc, reader, writer)),
        Task::Dump { partial: false } => rewritten(dump(alloc, reader, writer)),
        Task::Dump { partial: true } => rewritten(dump_partial(alloc, reader, writer)),
        Task::Upgrade => rewritten(upgrade(alloc, reader, writer)),
    }
}

/// The status of an answer, by whether what it looks for was found.
fn answered(outcome: Result<bool, SidesFault>) -> Result<u8, SidesFault>
    ensures { HasStatus (λ found status. status ≡ race_status found) (λ f. f) outcome result }
{
    Ok(status_of_race(outcome?))
}

/// Writes the answer to a question about a launch whose streams are in files, as text or as JSON, and gives the exit status.
///
/// # Errors
/// Those of `tell_files`.
fn tell<Q, T, O, W>(
    alloc: Global,
    question: Q,
    arguments: &Arguments<'_>,
    opener: O,
    writer: &mut W,
) -> Result<u8, SidesFault>
where
    Q: JsonQuestion + Drop,
    T: Read + Drop,
    O: Fn(&str) -> io::Result<T>,
    W: Write,
    requires { O.IsAlwaysCallable opener }
    ensures { IsAnswered T.remaining (FnReturnsAt O.Fn opener) (W.contents writer.old) (W.contents writer.new) result (inquiry_of arguments.now) (in_form arguments.now.json (Q.is_json question) (Q.is_text question)) (Q.is_found question) }
{
    let sides = SideNames {
        places: arguments.places,
        buffers: arguments.buffers,
    };
    let files = arguments.files.as_slice();
    if arguments.json {
        let outcome = tell_files(alloc, &InJson(question), &sides, files, opener, writer);
        answered(outcome)
    } else {
        let outcome = tell_files(alloc, &question, &sides, files, opener, writer);
        answered(outcome)
    }
}

/// The status of a check.
fn checked(outcome: Result<bool, Fault>) -> Result<u8, SidesFault>
    ensures { HasStatus (λ accepted status. status ≡ check_status accepted) OfRun outcome result }
{
    Ok(status_of_check(outcome?))
}

/// Answers what is asked about a launch whose streams are in files, and gives the exit status.
///
/// # Errors
/// Why there is no answer.
fn ask<H, T, O, W>(
    rt: H,
    alloc: Global,
    arguments: &Arguments<'_>,
    opener: O,
    writer: &mut W,
) -> Result<u8, SidesFault>
where
    H: Threads + Wait + Clock + Copy + Send + 'static,
    T: Read + Send + Drop + 'static,
    O: Fn(&str) -> io::Result<T>,
    W: Write,
    requires { O.IsAlwaysCallable opener }
    ensures { IsAnswerTo T.remaining (FnReturnsAt O.Fn opener) (W.contents writer.old) (W.contents writer.new) result (inquiry_of arguments.now) arguments.now.query }
{
    match arguments.query {
        Query::Explain { long, word } => {
            if long {
                tell(alloc, LongRace(word), arguments, opener, writer)
            } else {
                tell(alloc, LeastRace(word), arguments, opener, writer)
            }
        }
        Query::Races { most, causes } => {
            tell(alloc, Races { most, causes }, arguments, opener, writer)
        }
        Query::History { word } => tell(alloc, WordHistory(word), arguments, opener, writer),
        Query::Run { config } => reported(run_files(rt, alloc, config, arguments, opener, writer)),
        Query::Check => checked(write_check(alloc, arguments, opener, writer)),
        Query::WhyHeld { event } => tell(alloc, HeldEvent(event), arguments, opener, writer),
    }
}

/// What is wrong with words that the parser took, and how their command is used.
fn wrong_usage(why: Misuse) -> (&'static str, &'static str) {
    match why {
        Misuse::SidesAlone => ("--places and --buffers go with --long", EXPLAIN_USAGE),
        Misuse::NoWordToExplain => (NO_WORD, EXPLAIN_USAGE),
        Misuse::NoWordOfHistory => (NO_WORD, HISTORY_USAGE),
        Misuse::NoCount => ("N of --most is out of range", RACES_USAGE),
        Misuse::NoSetUp => (
            "N of --workers, --queues or --capacity is out of range",
            RUN_USAGE,
        ),
        Misuse::NoEvent => (NO_EVENT, WHY_HELD_USAGE),
    }
}

/// Says on standard error that the words of a command are wrong, though the parser took them.
fn refuse<E: Write>(why: Misuse, errors: &mut E) -> u8
    ensures { result ≡ USAGE }
{
    let (wrong, usage) = wrong_usage(why);
    let _ = write!(
        errors,
        "error: {wrong}\n\nUsage: {usage}\n\nFor more information, try '--help'.\n"
    );
    USAGE
}

/// Does what the words ask for, and gives the exit status. The words are those after the program's name. If they name files, `opener`
/// opens them; no other request opens a file. Only a run in threads uses `rt`. Standard error has what is wrong with the words, and nothing
/// else.
///
/// # Errors
/// Why what they ask for is not done.
pub fn execute<H, S, R, T, O, W, E>(
    rt: H,
    alloc: Global,
    words: &[S],
    reader: &mut R,
    opener: O,
    writer: &mut W,
    errors: &mut E,
) -> Result<u8, SidesFault>
where
    H: Threads + Wait + Clock + Copy + Send + 'static,
    S: AsStr,
    R: Read,
    T: Read + Send + Drop + 'static,
    O: Fn(&str) -> io::Result<T>,
    W: Write,
    E: Write,
    requires { O.IsAlwaysCallable opener }
    ensures known { IfOk result (λ status. status ≤ FAILED) }
    ensures does { (a : Asked) → AsksTo a (map S.text words.now) → IsDone T.remaining (FnReturnsAt O.Fn opener) (R.remaining reader.old) (W.contents writer.old) (W.contents writer.new) (E.contents errors.old) (E.contents errors.new) result a }
    ensures wrong { AreWrong (faults (map S.text words.now)) → ((result ≡ Ok USAGE) ⊎ (result ≡ Err (OfRun Fault.Memory))) × Keeps (W.contents writer.old) (W.contents writer.new) }
    ensures help { AreHelp (faults (map S.text words.now)) → (result ≡ Ok NOTHING) ⊎ (result ≡ Err (OfRun Fault.Memory)) ⊎ (result ≡ Err (OfRun Fault.Write)) }
{
    match request_of(alloc, words) {
        Ok(Request::Perform(task)) => perform(alloc, task, reader, writer),
        Ok(Request::Ask(arguments)) => ask(rt, alloc, &arguments, opener, writer),
        Ok(Request::Refuse(why)) => Ok(refuse(why, errors)),
        Err(error) => write_usage(&error, writer, errors),
    }
}
