//! The least racing pair of a word as JSON, alone or with what its accesses are, what is between them, the cause of their race, and
//! what side files say.

use crate::values::{
    AccessObject, DetailsObject, ElementObject, EventObject, Text, WordObject, access_object,
    buffer_object, details_object, line_of, place_of,
};
use gr_model::event::{EventId, Word, word_of};
use gr_model::memory::Memory;
use gr_places::index::PlaceIndex;
use gr_places::places::Placed;
use gr_places::sides::Sides;
use gr_races::account::Account;
use gr_races::between::{Between, Crossing, DetailedEvent};
use gr_races::kinds::KindedRace;
use gr_races::names::cause_name;
use serde::Serialize;
use std::alloc::Global;

/// A word and its racing pair, if it has one; or how many accesses to it are held, if that is counted.
#[derive(Drop, Serialize)]
struct RaceLine {
    #[serde(skip_serializing_if = "Option::is_none")]
    first: Option<EventObject>,
    #[serde(skip_serializing_if = "Option::is_none")]
    held: Option<usize>,
    #[serde(skip_serializing_if = "Option::is_none")]
    second: Option<EventObject>,
    #[serde(rename = "type")]
    line: &'static str,
    word: WordObject,
}

/// A barrier instance: its number, its site and its flags, and where the site is in the source.
#[derive(Drop, Serialize)]
pub(crate) struct CrossingObject<'a> {
    global: bool,
    instance: usize,
    local: bool,
    place: Option<&'a str>,
    site: u32,
}

/// What is between two accesses: the halves of a hand-over to the second and of one back, each if there is one, and barriers.
#[derive(Drop, Serialize)]
struct BetweenObject<'a> {
    acquire: Option<DetailsObject<'a>>,
    acquire_back: Option<DetailsObject<'a>>,
    barriers: Vec<CrossingObject<'a>>,
    release: Option<DetailsObject<'a>>,
    release_back: Option<DetailsObject<'a>>,
}

/// A race of two accesses.
#[derive(Drop, Serialize)]
struct OtherObject<'a> {
    first: AccessObject<'a>,
    second: AccessObject<'a>,
}

/// A word's racing pair, what its accesses are, what is between them, the cause of their race and the word's other races.
#[derive(Drop, Serialize)]
struct AccountLine<'a> {
    between: BetweenObject<'a>,
    buffer: Option<ElementObject<'a>>,
    cause: &'static str,
    first: DetailsObject<'a>,
    others: Vec<OtherObject<'a>>,
    second: DetailsObject<'a>,
    #[serde(rename = "type")]
    line: &'static str,
    word: WordObject,
}

fn race_line(word: Word, pair: Option<(EventId, EventId)>, held: Option<usize>) -> RaceLine {
    RaceLine {
        first: pair.map(|(first, _)| first.into()),
        held,
        second: pair.map(|(_, second)| second.into()),
        line: if pair.is_some() { "race" } else { "no race" },
        word: word.into(),
    }
}

/// The line of a word and its racing pair, or that it has none.
///
/// # Errors
/// `Memory`: out of memory.
pub fn race_json(alloc: Global, word: Word, pair: Option<(EventId, EventId)>) -> Text {
    line_of(alloc, &race_line(word, pair, None))
}

pub(crate) fn crossing_object<'a>(
    places: &PlaceIndex<'a>,
    crossing: &Crossing,
) -> CrossingObject<'a> {
    CrossingObject {
        global: crossing.global,
        instance: crossing.instance,
        local: crossing.local,
        place: places.place_of(Placed::Site(crossing.site)),
        site: crossing.site,
    }
}

fn half_object<'a>(
    alloc: Global,
    places: &PlaceIndex<'a>,
    half: Option<DetailedEvent>,
) -> Result<Option<DetailsObject<'a>>, Memory> {
    let Some(half) = half else {
        return Ok(None);
    };
    let names = half.said.names.as_slice().iter();
    let mut object = details_object(places, half.event, &half.details);
    object.names = Some(names.map(|name| (*name).into()).collect(alloc)?);
    object.word = word_of(half.event.at.group, &half.said).map(|word| word.into());
    Ok(Some(object))
}

fn between_object<'a>(
    alloc: Global,
    places: &PlaceIndex<'a>,
    between: &Between,
) -> Result<BetweenObject<'a>, Memory> {
    let crossings = between.crossings.iter();
    let barriers = crossings.map(|it| crossing_object(places, it));
    Ok(BetweenObject {
        acquire: half_object(alloc, places, between.acquire)?,
        acquire_back: half_object(alloc, places, between.acquire_back)?,
        barriers: barriers.collect(alloc)?,
        release: half_object(alloc, places, between.release)?,
        release_back: half_object(alloc, places, between.release_back)?,
    })
}

fn other_object<'a>(places: &PlaceIndex<'a>, other: &KindedRace) -> OtherObject<'a> {
    let (kind, race) = (other.kind, other.race);
    OtherObject {
        first: access_object(places, race.first, Some(kind.first.operation)),
        second: access_object(places, race.second, Some(kind.second.operation)),
    }
}

fn account_line<'a>(
    alloc: Global,
    sides: &Sides<'a>,
    places: &PlaceIndex<'a>,
    word: Word,
    account: &Account,
) -> Result<AccountLine<'a>, Memory> {
    let others = account.others.iter().map(|it| other_object(places, it));
    Ok(AccountLine {
        between: between_object(alloc, places, &account.between)?,
        buffer: buffer_object(sides, word),
        cause: cause_name(account.cause),
        first: details_object(places, account.first, &account.first_details),
        others: others.collect(alloc)?,
        second: details_object(places, account.second, &account.second_details),
        line: "race",
        word: word.into(),
    })
}

/// The line of a word's racing pair with all that, or that it has none and how many accesses to the word are held.
///
/// # Errors
/// `Memory`: out of memory.
pub fn account_json(
    alloc: Global,
    sides: &Sides<'_>,
    word: Word,
    account: Option<&Account>,
    held: usize,
) -> Text {
    let Some(account) = account else {
        return line_of(alloc, &race_line(word, None, Some(held)));
    };
    let places = PlaceIndex::of(alloc, sides.places)?;
    line_of(alloc, &account_line(alloc, sides, &places, word, account)?)
}
