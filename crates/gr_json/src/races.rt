//! The races of a launch kind by kind as JSON.

use crate::race::{CrossingObject, crossing_object};
use crate::report::{cut_line, diverge_line, end_line, unmatched_line};
use crate::values::{
    AccessObject, ElementObject, Text, WordObject, access_object, buffer_object, push_line,
    push_lines,
};
use gr_model::memory::Memory;
use gr_places::index::PlaceIndex;
use gr_places::sides::Sides;
use gr_races::by_kind::RacesByKind;
use gr_races::listing::KindEntry;
use gr_races::names::{cause_name, cause_sentence, operation_name, space_name};
use gr_races::runs::spans_of;
use serde::Serialize;
use std::alloc::Global;

/// A cause, and the sentence about it.
#[derive(Drop, Serialize)]
struct CauseObject {
    name: &'static str,
    sentence: &'static str,
}

/// A race, its word and its buffer, and its cause if it is known.
#[derive(Drop, Serialize)]
struct RaceObject<'a> {
    buffer: Option<ElementObject<'a>>,
    cause: Option<CauseObject>,
    first: AccessObject<'a>,
    second: AccessObject<'a>,
    word: WordObject,
}

/// What the two accesses of a kind are.
#[derive(Drop, Serialize)]
struct KindObject {
    all_write_here: bool,
    first: &'static str,
    one_group: bool,
    second: &'static str,
    space: &'static str,
}

/// Words one after another.
#[derive(Drop, Serialize)]
struct RunObject {
    first: WordObject,
    last: u32,
}

/// Items one after another that came to one barrier, or never came.
#[derive(Drop, Serialize)]
struct ArrivalObject<'a> {
    barrier: Option<CrossingObject<'a>>,
    first: u32,
    last: u32,
}

/// What the items of a group came with to a divergent instance of barriers.
#[derive(Drop, Serialize)]
struct ArrivalsLine<'a> {
    group: u16,
    instance: u32,
    items: Vec<ArrivalObject<'a>>,
    #[serde(rename = "type")]
    line: &'static str,
}

/// A kind, the first of its races, and its words.
#[derive(Drop, Serialize)]
struct KindLine<'a> {
    kind: KindObject,
    race: Option<RaceObject<'a>>,
    runs: Vec<RunObject>,
    #[serde(rename = "type")]
    line: &'static str,
    words: usize,
}

/// The first race of a kind.
fn first_race<'a>(
    sides: &Sides<'a>,
    places: &PlaceIndex<'a>,
    entry: &KindEntry,
) -> Option<RaceObject<'a>> {
    let race = entry.races.first()?;
    Some(RaceObject {
        buffer: buffer_object(sides, race.word),
        cause: entry.kind.cause.map(|cause| CauseObject {
            name: cause_name(cause),
            sentence: cause_sentence(race.word, cause),
        }),
        first: access_object(places, race.first, None),
        second: access_object(places, race.second, None),
        word: race.word.into(),
    })
}

/// Adds the line of a kind.
fn push_kind(
    text: &mut Vec<u8>,
    sides: &Sides<'_>,
    places: &PlaceIndex<'_>,
    entry: &KindEntry,
) -> Result<(), Memory> {
    let kind = &entry.kind;
    let runs = entry.runs.iter().map(|run| RunObject {
        first: run.first.into(),
        last: run.last,
    });
    let line = KindLine {
        kind: KindObject {
            all_write_here: kind.both_write_here(),
            first: operation_name(kind.first.operation),
            one_group: kind.one_group,
            second: operation_name(kind.second.operation),
            space: space_name(kind.space),
        },
        race: first_race(sides, places, entry),
        runs: runs.collect(*text.allocator())?,
        line: "kind",
        words: entry.races.len(),
    };
    push_line(text, &line)
}

/// Adds the line of what the items came with to the first divergent barrier, if there is one.
fn push_arrivals(
    text: &mut Vec<u8>,
    places: &PlaceIndex<'_>,
    found: &RacesByKind,
) -> Result<(), Memory> {
    let alloc = *text.allocator();
    let Some(first) = found.report.divergences.as_slice().first() else {
        return Ok(());
    };
    let spans = spans_of(alloc, &found.came, |item, barrier| (item, *barrier))?;
    let items = spans.iter().map(|it| ArrivalObject {
        barrier: it.value.map(|barrier| crossing_object(places, &barrier)),
        first: it.first,
        last: it.last,
    });
    let line = ArrivalsLine {
        group: first.group,
        instance: first.instance,
        items: items.collect(alloc)?,
        line: "arrivals",
    };
    push_line(text, &line)
}

/// The groups of a launch that are cut, its divergent barriers, its unmatched acquires, its races kind by kind, at most `most` kinds, with
/// what side files say about them, and an end that counts all of them, as lines of JSON.
///
/// # Errors
/// `Memory`: out of memory.
pub fn races_json(
    alloc: Global,
    sides: &Sides<'_>,
    found: &RacesByKind,
    most: Option<u32>,
) -> Text {
    let places = PlaceIndex::of(alloc, sides.places)?;
    let mut text = Vec::new(alloc);
    push_lines(&mut text, found.report.cut.as_slice(), cut_line)?;
    push_lines(&mut text, found.report.divergences.as_slice(), diverge_line)?;
    push_arrivals(&mut text, &places, found)?;
    push_lines(&mut text, found.report.unmatched.as_slice(), unmatched_line)?;
    for entry in found.at_most(most) {
        push_kind(&mut text, sides, &places, entry)?;
    }
    let end = end_line(&found.report, found.races, Some(found.kinds.len()));
    push_line(&mut text, &end)?;
    Ok(text)
}
