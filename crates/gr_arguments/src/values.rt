//! What the values of a command's arguments ask for.

ghost use Rattle.std.specs.Prelude.{◌≡◌, IfOk, codes, map, option_map};
ghost use Rattle.clap.specs.Walk.{Text, all_of, first_of, rows_of};
ghost use Rattle.clap.specs.Words.{found_of};
ghost use Rattle.gr_arguments.specs.Asked as asked;
ghost use Rattle.gr_arguments.specs.Asked.{HasEvent, IsAskedBy, IsForm, IsNumberOr, IsSaid, IsSetUp, IsTheOne, NamesWord};
ghost use Rattle.gr_arguments.specs.Asked.{asked_of, has_flag};

use crate::request::{Arguments, Misuse, Query, Request};
use crate::words::{event_named, number_of, word_named};
use clap::ArgMatches;
use gr_model::config::Config;
use gr_model::event::{EventId, Word};
use std::alloc::{AllocError, Global};

/// The value of this name, if there is one.
#[tactic(auto, using(crate::proofs::Asking::value_rows))]
fn value_of<'a>(values: &ArgMatches<'a>, name: &str) -> Option<&'a str>
    ensures { option_map (λ s. s.now) result ≡ first_of name.now (rows_of (found_of values.now)) }
{
    values.get_str(name)
}

/// The values of this name, if there are some.
#[tactic(auto, using(crate::proofs::Asking::value_rows))]
fn values_of<'a, 'b>(values: &'b ArgMatches<'a>, name: &str) -> Option<&'b [&'a str]>
    ensures { option_map (λ s. map (λ v. v.now) s.now) result ≡ all_of name.now (rows_of (found_of values.now)) }
{
    values.get_strs(name)
}

/// Whether the values have this flag.
pub(crate) fn asks_for(values: &ArgMatches<'_>, flag: &str) -> bool
    ensures { result ≡ has_flag flag.now (rows_of (found_of values.now)) }
{
    value_of(values, flag) == Some("true")
}

/// The files that the values name.
fn files_of<'a>(alloc: Global, values: &ArgMatches<'a>) -> Result<Vec<&'a str>, AllocError>
    ensures { IfOk result (λ v. map (λ s. s.now) v.items ≡ asked.files_of (rows_of (found_of values.now))) }
{
    Vec::from_slice(alloc, values_of(values, "FILE").unwrap_or(&[]))
}

/// The word of memory that the values name, if they name one.
fn word_of(values: &ArgMatches<'_>) -> Option<Word>
    ensures { IsTheOne (NamesWord (rows_of (found_of values.now))) result }
{
    word_named(value_of(values, "SPACE")?, value_of(values, "WORD")?)
}

/// Whether the values of the command `explain` ask for its long form; `None` if they name side files without it.
fn form_of(values: &ArgMatches<'_>) -> Option<bool>
    ensures { IsTheOne (IsForm (rows_of (found_of values.now))) result }
{
    if asks_for(values, "long") {
        return Some(true);
    }
    match (value_of(values, "places"), value_of(values, "buffers")) {
        (None, None) => Some(false),
        _ => None,
    }
}

/// What the values of the command `explain` ask.
pub(crate) fn explain_of(values: &ArgMatches<'_>) -> Result<Query, Misuse>
    ensures { IsSaid (codes "explain") (rows_of (found_of values.now)) result }
{
    let long = form_of(values).ok_or(Misuse::SidesAlone)?;
    let word = word_of(values).ok_or(Misuse::NoWordToExplain)?;
    Ok(Query::Explain { long, word })
}

/// What the values of the command `races` ask.
pub(crate) fn races_of(values: &ArgMatches<'_>) -> Result<Query, Misuse>
    ensures { IsSaid (codes "races") (rows_of (found_of values.now)) result }
{
    let causes = asks_for(values, "causes");
    let most = match value_of(values, "most") {
        None => None,
        Some(text) => Some(number_of(text).ok_or(Misuse::NoCount)?),
    };
    Ok(Query::Races { most, causes })
}

/// What the values of the command `history` ask.
pub(crate) fn history_of(values: &ArgMatches<'_>) -> Result<Query, Misuse>
    ensures { IsSaid (codes "history") (rows_of (found_of values.now)) result }
{
    let word = word_of(values).ok_or(Misuse::NoWordOfHistory)?;
    Ok(Query::History { word })
}

/// The number below 2^32 after an option, or `default` if the option is not there.
fn number_or(values: &ArgMatches<'_>, option: &str, default: u32) -> Option<u32>
    ensures { IsTheOne (IsNumberOr (rows_of (found_of values.now)) option.now default) result }
{
    value_of(values, option).map_or(Some(default), number_of)
}

/// How the values of the command `run` set up a run.
fn config_of(values: &ArgMatches<'_>) -> Option<Config>
    ensures { IsTheOne (IsSetUp (rows_of (found_of values.now))) result }
{
    let workers = u16::try_from(number_or(values, "workers", 2)?).ok()?;
    let queues = u16::try_from(number_or(values, "queues", 1)?).ok()?;
    let capacity = number_or(values, "capacity", 1024)?;
    Config::new(workers, queues, capacity).ok()
}

/// What the values of the command `run` ask.
pub(crate) fn run_of(values: &ArgMatches<'_>) -> Result<Query, Misuse>
    ensures { IsSaid (codes "run") (rows_of (found_of values.now)) result }
{
    let config = config_of(values).ok_or(Misuse::NoSetUp)?;
    Ok(Query::Run { config })
}

/// The event that the values name, if they name one.
fn event_of(values: &ArgMatches<'_>) -> Option<EventId>
    ensures { IsTheOne (HasEvent (rows_of (found_of values.now))) result }
{
    let group = value_of(values, "GROUP")?;
    event_named(group, value_of(values, "ITEM")?, value_of(values, "INDEX")?)
}

/// What the values of the command `why-held` ask.
pub(crate) fn why_held_of(values: &ArgMatches<'_>) -> Result<Query, Misuse>
    ensures { IsSaid (codes "why-held") (rows_of (found_of values.now)) result }
{
    let event = event_of(values).ok_or(Misuse::NoEvent)?;
    Ok(Query::WhyHeld { event })
}

/// The name of a side file, if the query takes side files.
fn side_of<'a>(query: &Query, option: &str, values: &ArgMatches<'a>) -> Option<&'a str>
    ensures { option_map (λ s. s.now) result ≡ asked.side_of query.now option.now (rows_of (found_of values.now)) }
{
    match query {
        Query::Run { .. } | Query::Check | Query::WhyHeld { .. } => None,
        Query::Explain { .. } | Query::Races { .. } | Query::History { .. } => {
            value_of(values, option)
        }
    }
}

/// What a command on files asks for, if its own values ask for `said`.
pub(crate) fn ask<'a>(
    alloc: Global,
    said: Result<Query, Misuse>,
    values: &ArgMatches<'a>,
) -> Result<Request<'a>, AllocError>
    ensures { (name : Text) → IsSaid name (rows_of (found_of values.now)) said
        → IfOk result (λ r. IsAskedBy name (rows_of (found_of values.now)) (asked_of r)) }
{
    let query = match said {
        Ok(query) => query,
        Err(misuse) => return Ok(Request::Refuse(misuse)),
    };
    Ok(Request::Ask(Arguments {
        places: side_of(&query, "places", values),
        buffers: side_of(&query, "buffers", values),
        json: asks_for(values, "json"),
        files: files_of(alloc, values)?,
        query,
    }))
}
