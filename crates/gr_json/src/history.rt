//! The history of a word as JSON.

use crate::values::{
    DetailsObject, ElementObject, EventObject, KindObject, Text, WordObject, buffer_object,
    details_object, place_of, push_line, push_lines,
};
use gr_model::class::class_of;
use gr_model::event::Word;
use gr_model::memory::Memory;
use gr_places::index::PlaceIndex;
use gr_places::sides::Sides;
use gr_timeline::details::Details;
use gr_timeline::entry::Entry;
use gr_timeline::standing::{Above, Named};
use gr_timeline::word_history::HistoryAnswer;
use serde::Serialize;
use std::alloc::Global;

/// Some events: the first few, and how many others there are.
#[derive(Drop, Serialize)]
struct NamedObject {
    events: Vec<EventObject>,
    others: usize,
}

/// An access, its details, and how it is ordered with respect to those above it.
#[derive(Drop, Serialize)]
struct AccessLine<'a> {
    access: KindObject,
    behind: usize,
    #[serde(flatten)]
    event: EventObject,
    phase: usize,
    place: Option<&'a str>,
    races_with: NamedObject,
    record: usize,
    #[serde(rename = "type")]
    line: &'static str,
    unordered_with: NamedObject,
}

/// An access that is held.
#[derive(Drop, Serialize)]
struct HeldLine<'a> {
    #[serde(flatten)]
    details: DetailsObject<'a>,
    #[serde(rename = "type")]
    line: &'static str,
}

/// The word, its buffer, how many accesses there are, how many others are held, and whether some of them race.
#[derive(Drop, Serialize)]
struct EndLine<'a> {
    accesses: usize,
    buffer: Option<ElementObject<'a>>,
    held: usize,
    races: bool,
    #[serde(rename = "type")]
    line: &'static str,
    word: WordObject,
}

fn named_object(alloc: Global, named: &Named) -> Result<NamedObject, Memory> {
    let events = named.events.iter().map(|event| (*event).into());
    Ok(NamedObject {
        events: events.collect(alloc)?,
        others: named.others,
    })
}

/// Adds the line of an access, and counts it among those above the next.
fn push_access(
    text: &mut Vec<u8>,
    places: &PlaceIndex<'_>,
    above: &mut Above,
    entry: &Entry,
    details: &Details,
) -> Result<(), Memory> {
    let alloc = *text.allocator();
    let Some(class) = class_of(&details.kind) else {
        return Ok(());
    };
    let standing = above.add(alloc, entry, class)?;
    let line = AccessLine {
        access: details.kind.into(),
        behind: standing.behind,
        event: entry.event.into(),
        phase: details.phase,
        place: place_of(places, entry.event),
        races_with: named_object(alloc, &standing.races)?,
        record: details.number,
        line: "access",
        unordered_with: named_object(alloc, &standing.unordered)?,
    };
    push_line(text, &line)
}

/// The history of a word, with what side files say about it and its accesses, as lines of JSON.
///
/// # Errors
/// `Memory`: out of memory.
pub fn history_json(alloc: Global, sides: &Sides<'_>, word: Word, history: &HistoryAnswer) -> Text {
    let places = PlaceIndex::of(alloc, sides.places)?;
    let mut above = Above::new(alloc);
    let mut text = Vec::new(alloc);
    let mut place = 0;
    for entry in &history.entries {
        if let Some(details) = history.details_at(&mut place, entry.event) {
            push_access(&mut text, &places, &mut above, entry, &details)?;
        }
    }
    let held = history.held_accesses(alloc)?;
    push_lines(
        &mut text,
        &held,
        |(event, details)| HeldLine {
            details: details_object(&places, *event, details),
            line: "held",
        },
    )?;
    let end = EndLine {
        accesses: history.entries.len(),
        buffer: buffer_object(sides, word),
        held: history.held,
        races: history.racy,
        line: "end",
        word: word.into(),
    };
    push_line(&mut text, &end)?;
    Ok(text)
}
