//! The text of the history of a word.

use crate::parts::{Added, AtText, DetailsText, EventText, KindText, put_buffer};
use gr_model::class::class_of;
use gr_model::event::{EventId, Kind, Word};
use gr_model::memory::Memory;
use gr_places::index::PlaceIndex;
use gr_places::places::Placed;
use gr_places::sides::Sides;
use gr_timeline::details::Details;
use gr_timeline::entry::Entry;
use gr_timeline::standing::{Above, Named, Standing};
use gr_timeline::word_history::HistoryAnswer;
use itoa::Buffer;
use std::alloc::Allocator;

/// How many accesses that are held are listed at most.
const MOST_HELD: usize = 8;

/// A line: one access, or some of one item that come one after another in it, are alike, and relate alike to all above them.
#[derive(Drop)]
struct Row<'a, A: Allocator> {
    /// The first.
    first: EventId,
    /// The index of the last.
    last: u32,
    /// The details of the first.
    details: Option<Details>,
    /// The number of the last one's record.
    last_record: usize,
    standing: Option<Standing<A>>,
    place: Option<&'a str>,
}

/// Adds an event as `EventText` does, and faster than `write!`: most of a long history is events.
fn put_event<A: Allocator>(text: &mut String<A>, event: EventId) -> Added {
    let EventId { at, index } = event;
    let mut buffer = Buffer::new();
    for number in [u32::from(at.group), u32::from(at.item), index] {
        text.push(' ')?;
        text.push_str(buffer.format(number))?;
    }
    Ok(())
}

/// Adds these words and events, if there are any.
fn put_named<A: Allocator + Copy>(text: &mut String<A>, before: &str, named: &Named<A>) -> Added {
    let mut between = before;
    for event in &named.events {
        text.push_str(between)?;
        put_event(text, *event)?;
        between = ",";
    }
    match named.others {
        0 => Ok(()),
        others => write!(text, " and {others} more"),
    }
}

fn put_standing<A: Allocator + Copy>(text: &mut String<A>, standing: &Standing<A>) -> Added {
    put_named(text, " races with", &standing.races)?;
    if standing.behind == 0 {
        return write!(text, " ordered after none");
    }
    let is_alone = standing.races.count() == 0;
    write!(
        text,
        " ordered after all{}",
        if is_alone { "" } else { " others" }
    )?;
    put_named(text, " but", &standing.unordered)
}

/// Adds a number, or the first and the last of some.
fn put_span<A: Allocator>(text: &mut String<A>, first: usize, last: usize) -> Added {
    if first == last {
        write!(text, " {first}")
    } else {
        write!(text, " {first} to {last}")
    }
}

impl<A: Allocator + Copy> Row<'_, A> {
    /// Whether another access goes on with these.
    fn takes(&self, next: &Row<'_, A>) -> bool {
        next.first.at == self.first.at
            && Some(next.first.index) == self.last.checked_add(1)
            && next.kind_and_phase() == self.kind_and_phase()
            && next.place == self.place
            && match (&self.standing, &next.standing) {
                (Some(mine), Some(theirs)) => mine.is_like(theirs),
                _ => false,
            }
    }

    fn kind_and_phase(&self) -> Option<(Kind, usize)> {
        self.details.map(|details| (details.kind, details.phase))
    }

    /// Adds the line.
    fn put(&self, text: &mut String<A>) -> Added {
        let EventId { at, index } = self.first;
        write!(text, "access {} {}", at.group, at.item)?;
        put_span(text, index as usize, self.last as usize)?;
        if let Some(details) = self.details {
            write!(text, " {} record", KindText(details.kind))?;
            put_span(text, details.number, self.last_record)?;
            write!(text, " phase {}", details.phase)?;
        }
        if let Some(standing) = &self.standing {
            put_standing(text, standing)?;
        }
        writeln!(text, "{}", AtText(self.place))
    }
}

/// The line of an access alone, which then counts among those above the next.
fn row_of<'a, A: Allocator + Copy>(
    alloc: A,
    places: &PlaceIndex<'a, A>,
    above: &mut Above<A>,
    entry: &Entry<A>,
    details: Option<Details>,
) -> Result<Row<'a, A>, Memory> {
    let standing = match details.and_then(|details| class_of(&details.kind)) {
        Some(class) => Some(above.add(alloc, entry, class)?),
        None => None,
    };
    Ok(Row {
        first: entry.event,
        last: entry.event.index,
        details,
        last_record: details.map_or(0, |details| details.number),
        standing,
        place: places.place_of(Placed::Event(entry.event)),
    })
}

/// Adds the accesses of a history, those of one item that are alike in one line.
fn put_accesses<A: Allocator + Copy>(
    alloc: A,
    text: &mut String<A>,
    places: &PlaceIndex<'_, A>,
    history: &HistoryAnswer<A>,
) -> Result<(), Memory> {
    let mut above = Above::new(alloc);
    let mut last: Option<Row<'_, A>> = None;
    let mut place = 0;
    for entry in &history.entries {
        let details = history.details_at(&mut place, entry.event);
        let next = row_of(alloc, places, &mut above, entry, details)?;
        match &mut last {
            Some(row) if row.takes(&next) => {
                row.last = next.last;
                row.last_record = next.last_record;
            }
            _ => {
                if let Some(row) = last.replace(next) {
                    row.put(text)?;
                }
            }
        }
    }
    if let Some(row) = last {
        row.put(text)?;
    }
    Ok(())
}

/// Adds the first accesses that are held, and how many more there are.
fn put_held<A: Allocator + Copy>(
    alloc: A,
    text: &mut String<A>,
    places: &PlaceIndex<'_, A>,
    history: &HistoryAnswer<A>,
) -> Added {
    for (event, details) in history.held_accesses(alloc)?.iter().take(MOST_HELD) {
        let (shown, details) = (EventText(*event), DetailsText(*details));
        let at = AtText(places.place_of(Placed::Event(*event)));
        writeln!(text, "held {shown} {details}{at}")?;
    }
    match history.held.saturating_sub(MOST_HELD) {
        0 => Ok(()),
        more => writeln!(text, "held and {more} more"),
    }
}

fn put_end<A: Allocator>(text: &mut String<A>, history: &HistoryAnswer<A>) -> Added {
    let (accesses, held) = (history.entries.len(), history.held);
    let races = if history.racy { "yes" } else { "no" };
    writeln!(text, "end accesses {accesses} held {held} races {races}")
}

/// The text of the history of a word, with what side files say.
///
/// # Errors
/// `Memory`: out of memory.
pub fn history_text<A: Allocator + Copy>(
    alloc: A,
    sides: &Sides<'_>,
    word: Word,
    history: &HistoryAnswer<A>,
) -> Result<Vec<u8, A>, Memory> {
    let places = PlaceIndex::of(alloc, sides.places)?;
    let mut text = String::new(alloc);
    put_buffer(&mut text, sides, word)?;
    put_accesses(alloc, &mut text, &places, history)?;
    put_held(alloc, &mut text, &places, history)?;
    put_end(&mut text, history)?;
    Ok(text.into_bytes())
}
