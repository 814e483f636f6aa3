//! The report of a launch as JSON: a line for how large the launch is, a line for each finding, and the end.

use crate::values::{EventObject, Text, WordObject, push_line, push_lines};
use gr_model::report::{Divergence, Unmatched};
use gr_races::names::{acquire_name, divergence_name};
use gr_report::report::Report;
use serde::Serialize;
use std::alloc::{Allocator, Global};

/// How large a launch is.
#[derive(Drop, Serialize)]
struct LaunchLine {
    groups: u16,
    items: u32,
    records: u64,
    #[serde(rename = "type")]
    line: &'static str,
}

/// A group that is cut.
#[derive(Drop, Serialize)]
pub(crate) struct CutLine {
    group: u16,
    #[serde(rename = "type")]
    line: &'static str,
}

/// A racy word.
#[derive(Drop, Serialize)]
struct RaceLine {
    #[serde(rename = "type")]
    line: &'static str,
    word: WordObject,
}

/// A divergent instance of a group's barriers.
#[derive(Drop, Serialize)]
pub(crate) struct DivergeLine {
    cause: &'static str,
    group: u16,
    instance: u32,
    #[serde(rename = "type")]
    line: &'static str,
}

/// An unmatched acquire.
#[derive(Drop, Serialize)]
pub(crate) struct UnmatchedLine {
    cause: &'static str,
    event: EventObject,
    #[serde(rename = "type")]
    line: &'static str,
}

/// How many of each finding there are, how many kinds of races if they are listed by kinds, and how many races.
#[derive(Drop, Serialize)]
pub(crate) struct EndLine {
    diverge: usize,
    held: u64,
    #[serde(skip_serializing_if = "Option::is_none")]
    kinds: Option<usize>,
    races: usize,
    #[serde(rename = "type")]
    line: &'static str,
    unmatched: usize,
}

/// The line of a group that is cut.
pub(crate) fn cut_line(group: &u16) -> CutLine {
    let (group, line) = (*group, "cut");
    CutLine { group, line }
}

/// The line of a divergent instance.
pub(crate) fn diverge_line(divergence: &Divergence) -> DivergeLine {
    DivergeLine {
        cause: divergence_name(divergence.cause),
        group: divergence.group,
        instance: divergence.instance,
        line: "diverge",
    }
}

/// The line of an unmatched acquire.
pub(crate) fn unmatched_line(acquire: &Unmatched) -> UnmatchedLine {
    UnmatchedLine {
        cause: acquire_name(acquire.cause),
        event: acquire.event.into(),
        line: "unmatched",
    }
}

/// The end of a report with so many races, of so many kinds if they are listed by kinds.
pub(crate) fn end_line<A: Allocator>(
    report: &Report<A>,
    races: usize,
    kinds: Option<usize>,
) -> EndLine {
    EndLine {
        diverge: report.divergences.as_slice().len(),
        held: report.held,
        kinds,
        races,
        line: "end",
        unmatched: report.unmatched.as_slice().len(),
    }
}

/// The report as lines of JSON, in the order of its text.
///
/// # Errors
/// `Memory`: out of memory.
pub fn report_json<A: Allocator>(alloc: Global, report: &Report<A>) -> Text {
    let mut text = Vec::new(alloc);
    let races = report.races.as_slice();
    let launch = LaunchLine {
        groups: report.groups,
        items: report.items,
        records: report.records,
        line: "launch",
    };
    push_line(&mut text, &launch)?;
    push_lines(&mut text, report.cut.as_slice(), cut_line)?;
    for word in races {
        let (line, word) = ("race", (*word).into());
        push_line(&mut text, &RaceLine { line, word })?;
    }
    push_lines(&mut text, report.divergences.as_slice(), diverge_line)?;
    push_lines(&mut text, report.unmatched.as_slice(), unmatched_line)?;
    push_line(&mut text, &end_line(report, races.len(), None))?;
    Ok(text)
}
