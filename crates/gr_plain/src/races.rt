//! The text of races, kind by kind.

use crate::parts::{Added, EventText, WordText, put_cause, put_race, put_site};
use gr_model::memory::Memory;
use gr_model::report::Unmatched;
use gr_places::escaped::Escaped;
use gr_places::index::PlaceIndex;
use gr_places::places::Placed;
use gr_places::sides::Sides;
use gr_races::between::Crossing;
use gr_races::by_kind::RacesByKind;
use gr_races::kinds::RaceKind;
use gr_races::listing::KindEntry;
use gr_races::names::{acquire_name, divergence_name, operation_name, space_name};
use gr_races::runs::{Span, number_of, spans_of};
use std::alloc::Allocator;
use std::fmt::Display;

/// How many runs of words, of items and of divergent barriers, how many barriers that items came to, and how many unmatched acquires are
/// shown at most.
const MOST_RUNS: usize = 5;

/// Adds the line of a kind, and how many words have it.
fn put_kind<A: Allocator>(text: &mut String<A>, kind: RaceKind, words: usize) -> Added {
    let space = space_name(kind.space);
    let first = operation_name(kind.first.operation);
    let second = operation_name(kind.second.operation);
    let groups = if kind.one_group {
        "one group"
    } else {
        "two groups"
    };
    writeln!(text, "kind {space} {first} {second} {groups} words {words}")
}

/// How many numbers a run has.
fn count_of(first: u32, last: u32) -> u64 {
    u64::from(last.saturating_sub(first)).saturating_add(1)
}

/// Adds a run by its first, the number of that, and the number of its last.
fn put_run<A: Allocator, U: Display + Drop>(
    text: &mut String<A>,
    shown: U,
    first: u32,
    last: u32,
) -> Added {
    if first == last {
        write!(text, "{shown}")
    } else {
        write!(text, "{shown}..{last}")
    }
}

/// Adds the first of the runs that are to be shown, each by its first, the number of that, and the number of its last; and how many more
/// there are of what is shown.
fn put_runs<A: Allocator, T, U: Display + Drop, F: Fn(&T) -> Option<(U, u32, u32)>>(
    text: &mut String<A>,
    runs: &[T],
    shown: F,
) -> Added
    requires { F.IsAlwaysCallable shown }
{
    let (mut count, mut more): (usize, u64) = (0, 0);
    for run in runs {
        let Some((first, number, last)) = shown(run) else {
            continue;
        };
        count = count.saturating_add(1);
        if count > MOST_RUNS {
            more = more.saturating_add(count_of(number, last));
        } else {
            write!(text, " ")?;
            put_run(text, first, number, last)?;
        }
    }
    if more > 0 {
        write!(text, " and {more} more")?;
    }
    Ok(())
}

/// Adds a kind with its words, and the first of its races with what side files say, and with its cause if it is known.
fn put_entry<A: Allocator>(
    text: &mut String<A>,
    sides: &Sides<'_>,
    places: &PlaceIndex<'_, A>,
    entry: &KindEntry<A>,
) -> Added {
    let kind = entry.kind;
    put_kind(text, kind, entry.races.len())?;
    write!(text, "words")?;
    put_runs(
        text,
        &entry.runs,
        |run| Some((WordText(run.first), number_of(run.first), run.last)),
    )?;
    writeln!(text, "")?;
    let Some(race) = entry.races.first() else {
        return Ok(());
    };
    put_race(text, sides, race.word, (race.first, race.second))?;
    for (label, event) in [("first", race.first), ("second", race.second)] {
        if let Some(place) = places.place_of(Placed::Event(event)) {
            writeln!(text, "{label} {}", Escaped(place))?;
        }
    }
    if kind.both_write_here() {
        writeln!(text, "note both write here")?;
    }
    match kind.cause {
        None => Ok(()),
        Some(cause) => put_cause(text, race.word, cause),
    }
}

/// Adds the items that came to a barrier of an instance, or that never came.
fn put_arrival<A: Allocator>(
    text: &mut String<A>,
    places: &PlaceIndex<'_, A>,
    arrivals: &[Span<Option<Crossing>>],
    barrier: Option<Crossing>,
) -> Added {
    let what = if barrier.is_some() { "came" } else { "missing" };
    write!(text, "{what} items")?;
    put_runs(
        text,
        arrivals,
        |it| (it.value == barrier).then_some((it.first, it.first, it.last)),
    )?;
    match barrier {
        None => writeln!(text, ""),
        Some(barrier) => {
            write!(text, " ")?;
            put_site(text, places, &barrier)
        }
    }
}

/// Adds for each of the first barriers of an instance the items that came to it; how many items came to others; and which never came.
fn put_arrivals<A: Allocator + Copy>(
    alloc: A,
    text: &mut String<A>,
    places: &PlaceIndex<'_, A>,
    came: &[Option<Crossing>],
) -> Added {
    let arrivals = spans_of(alloc, came, |item, barrier| (item, *barrier))?;
    let mut shown: Vec<Option<Crossing>, A> = Vec::new(alloc);
    let mut more: u64 = 0;
    for arrival in arrivals.iter().filter(|it| it.value.is_some()) {
        if shown.contains(&arrival.value) {
            continue;
        }
        if shown.len() < MOST_RUNS {
            shown.push(arrival.value)?;
            put_arrival(text, places, &arrivals, arrival.value)?;
        } else {
            more = more.saturating_add(count_of(arrival.first, arrival.last));
        }
    }
    if more > 0 {
        writeln!(text, "came and {more} more")?;
    }
    match arrivals.iter().any(|it| it.value.is_none()) {
        true => put_arrival(text, places, &arrivals, None),
        false => Ok(()),
    }
}

/// Adds the first of the divergent barriers, since races may follow from them; what the items brought to the first of all; and how many
/// more barriers there are.
fn put_divergences<A: Allocator + Copy>(
    alloc: A,
    text: &mut String<A>,
    places: &PlaceIndex<'_, A>,
    found: &RacesByKind<A>,
) -> Added {
    let divergences = found.report.divergences.as_slice();
    let mut more = divergences.len() as u64;
    let spans = spans_of(
        alloc,
        divergences,
        |_, it| (it.instance, (it.group, it.cause)),
    )?;
    for (place, span) in spans.iter().take(MOST_RUNS).enumerate() {
        let (first, last, (group, cause)) = (span.first, span.last, span.value);
        write!(text, "diverge {group} ")?;
        put_run(text, first, first, last)?;
        writeln!(text, " {}", divergence_name(cause))?;
        if place == 0 {
            put_arrivals(alloc, text, places, &found.came)?;
        }
        more = more.saturating_sub(count_of(first, last));
    }
    match more {
        0 => Ok(()),
        more => writeln!(text, "diverge and {more} more"),
    }
}

/// Adds the first of the unmatched acquires, since what waits for them is not judged, and how many more there are.
fn put_unmatched<A: Allocator>(text: &mut String<A>, unmatched: &[Unmatched]) -> Added {
    for acquire in unmatched.iter().take(MOST_RUNS) {
        let (event, cause) = (EventText(acquire.event), acquire_name(acquire.cause));
        writeln!(text, "unmatched {event} {cause}")?;
    }
    match unmatched.len().saturating_sub(MOST_RUNS) {
        0 => Ok(()),
        more => writeln!(text, "unmatched and {more} more"),
    }
}

fn put_end<A: Allocator>(text: &mut String<A>, found: &RacesByKind<A>) -> Added {
    let (kinds, races, held) = (found.kinds.len(), found.races, found.report.held);
    let diverge = found.report.divergences.as_slice().len();
    let unmatched = found.report.unmatched.as_slice().len();
    write!(text, "end kinds {kinds} races {races} diverge {diverge} ")?;
    writeln!(text, "unmatched {unmatched} held {held}")
}

/// The text of the groups of a launch that are cut, its divergent barriers, its unmatched acquires, its races kind by kind, at most `most`
/// kinds, with what side files say about them, and an end that counts all of them.
///
/// # Errors
/// `Memory`: out of memory.
pub fn races_text<A: Allocator + Copy>(
    alloc: A,
    sides: &Sides<'_>,
    found: &RacesByKind<A>,
    most: Option<u32>,
) -> Result<Vec<u8, A>, Memory> {
    let places = PlaceIndex::of(alloc, sides.places)?;
    let mut text = String::new(alloc);
    for group in found.report.cut.as_slice() {
        writeln!(text, "cut {group}")?;
    }
    put_divergences(alloc, &mut text, &places, found)?;
    put_unmatched(&mut text, found.report.unmatched.as_slice())?;
    for entry in found.at_most(most) {
        put_entry(&mut text, sides, &places, entry)?;
    }
    put_end(&mut text, found)?;
    Ok(text.into_bytes())
}
