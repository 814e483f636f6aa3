//! Requests: what the words of a command line ask for.

ghost use Rattle.std.specs.Prelude.{IfOk, map};
ghost use Rattle.clap.specs.Walk.{rows_of};
ghost use Rattle.clap.specs.Words.{FailsBy, found_of, subcommand_rows_of};
ghost use Rattle.gr_arguments.specs.Asked.{AsksTo, IsAskedBy, asked_of};
ghost use Rattle.gr_arguments.specs.Commands.{faults, meant, name_met, values_met};

use crate::command::command;
use crate::values::{ask, asks_for, explain_of, history_of, races_of, run_of, why_held_of};
use clap::{ArgMatches, Error};
use gr_model::config::Config;
use gr_model::event::{EventId, Word};
use std::alloc::{AllocError, Global};
use std::convert::AsStr;

/// What is done with the streams on standard input, one after another.
#[derive(Clone, Copy, Debug, PartialEq, Eq)]
pub enum Task {
    /// Report on their launch, as text or as JSON.
    Replay { json: bool },
    /// Read the text of streams there, and write their bytes.
    Pack,
    /// Write their text; if they are refused and `partial` is set, the text of what comes before the fault.
    Dump { partial: bool },
    /// Write them in version 2.
    Upgrade,
}

/// What a command asks about a launch whose streams are in files.
#[derive(Clone, Copy)]
pub enum Query {
    /// The least racing pair of a word; `long`: also what the two accesses are, what is between them and the cause of their race.
    Explain { long: bool, word: Word },
    /// The races by their kinds: `most` kinds, or all if there is no number; with their causes if `causes` is set.
    Races { most: Option<u32>, causes: bool },
    /// All accesses to a word.
    History { word: Word },
    /// The report, by a run in threads; `config` says how many workers and queues, and how much room a queue has.
    Run { config: Config },
    /// Which record of which file is at fault; or how many records of each kind there are.
    Check,
    /// Why an event is held.
    WhyHeld { event: EventId },
}

/// The arguments of a command on files.
#[derive(Drop)]
pub struct Arguments<'a> {
    /// What it asks.
    pub query: Query,
    /// The name of the file of places, if there is one.
    pub places: Option<&'a str>,
    /// The name of the file of buffers, if there is one.
    pub buffers: Option<&'a str>,
    /// Whether the answer is to be JSON.
    pub json: bool,
    /// The names of the files of the streams, one each.
    pub files: Vec<&'a str>,
}

/// Why words ask for nothing, though the parser took them.
#[derive(Clone, Copy, Debug, PartialEq, Eq)]
pub enum Misuse {
    /// `explain`: side files are given, but the long form is not asked for.
    SidesAlone,
    /// `explain`: no word of memory is given.
    NoWordToExplain,
    /// `races`: the number of kinds is not a number.
    NoCount,
    /// `history`: no word of memory is given.
    NoWordOfHistory,
    /// `run`: the numbers of workers, queues or room are not allowed.
    NoSetUp,
    /// `why-held`: no event is given.
    NoEvent,
}

/// What the words of a command line ask for.
#[derive(Drop)]
pub enum Request<'a> {
    /// A task over standard input.
    Perform(Task),
    /// A query about a launch whose streams are in files.
    Ask(Arguments<'a>),
    /// Nothing.
    Refuse(Misuse),
}

/// What the command of this name asks for with these values. An unknown name is taken for `replay`.
fn request_by<'a>(
    alloc: Global,
    name: &str,
    values: &ArgMatches<'a>,
) -> Result<Request<'a>, AllocError>
    ensures { IfOk result (λ r. IsAskedBy (meant name.now) (rows_of (found_of values.now)) (asked_of r)) }
{
    match name {
        "pack" => Ok(Request::Perform(Task::Pack)),
        "dump" => {
            let partial = asks_for(values, "partial");
            Ok(Request::Perform(Task::Dump { partial }))
        }
        "upgrade" => Ok(Request::Perform(Task::Upgrade)),
        "explain" => ask(alloc, explain_of(values), values),
        "races" => ask(alloc, races_of(values), values),
        "history" => ask(alloc, history_of(values), values),
        "run" => ask(alloc, run_of(values), values),
        "check" => ask(alloc, Ok(Query::Check), values),
        "why-held" => ask(alloc, why_held_of(values), values),
        _ => {
            let json = asks_for(values, "json");
            Ok(Request::Perform(Task::Replay { json }))
        }
    }
}

/// What the command that was parsed asks for with its values; a report if there is no command.
fn request_in<'a>(alloc: Global, matches: &ArgMatches<'a>) -> Result<Request<'a>, AllocError>
    ensures { let met = subcommand_rows_of matches.now in IfOk result (λ r. IsAskedBy (name_met met) (values_met met) (asked_of r)) }
{
    match matches.subcommand() {
        None => Ok(Request::Perform(Task::Replay { json: false })),
        Some((name, values)) => request_by(alloc, name, values),
    }
}

/// What the words ask for, the program's name not among them.
///
/// # Errors
/// The text of help or of wrong usage, or `OutOfMemory`. If the words are right, only `OutOfMemory`.
pub fn request_of<'a, S: AsStr>(alloc: Global, words: &'a [S]) -> Result<Request<'a>, Error>
    ensures fails { FailsBy (faults (map S.text words.now)) result }
    ensures asks { IfOk result (λ r. AsksTo (asked_of r) (map S.text words.now)) }
{
    let matches = command(alloc)?.try_get_matches_from(words)?;
    Ok(request_in(alloc, &matches)?)
}
