//! The least racing pair of a word, what its accesses are, what lies between them, the cause of their race, and the word's other races.

ghost use Rattle.std.specs.Prelude.{◌≡◌, ◌∷◌, [], IfOk, option_map};
ghost use Rattle.gr_explain.specs.LeastRaces.{IsLeastRace};
ghost use Rattle.gr_explain.specs.TagRaces.{AreTagRaces};
ghost use Rattle.gr_places.specs.PlaceIndexes.{number_at};
ghost use Rattle.gr_places.specs.SideLines.{place_number};
ghost use Rattle.gr_places.specs.Sides.{sides_said};
ghost use Rattle.gr_races.specs.Kinds.{tag_at};
ghost use Rattle.gr_races.specs.Accounts.{AreOthers, IsAccount, IsAccountOf, account_said};

use crate::between::{Between, between_of};
use crate::cause::{Cause, cause_of};
use crate::kinds::{KindedRace, PlaceTags};
use crate::listing::ordered_rows;
use gr_explain::records::Records;
use gr_explain::tagged::explain_by_tags;
use gr_explain::tags::Tags;
use gr_model::event::{EventId, Word};
use gr_model::memory::Memory;
use gr_model::race::Race;
use gr_model::traces::Traces;
use gr_places::index::PlaceIndex;
use gr_places::sides::Sides;
use gr_timeline::details::{Details, details_of};
use std::alloc::{Allocator, Global};

/// A racing pair, the cause of the race, and the other races of the word.
#[derive(Drop)]
#[derive_where(Debug)]
pub struct Account<A: Allocator = Global> {
    /// The smaller event.
    pub first: EventId,
    /// The greater event.
    pub second: EventId,
    /// What the smaller event is.
    pub first_details: Details,
    /// What the greater event is.
    pub second_details: Details,
    /// What lies between the two.
    pub between: Between<A>,
    /// The cause.
    pub cause: Cause,
    /// A race for each further two tags that race on the word; and one of the pair's tags that is of two groups, if the pair is of one.
    pub others: Vec<KindedRace, A>,
}

/// Those races of a word, one for each two tags, that are not of two events' tags, or that are of two groups while the two events are of
/// one, with their kinds.
fn other_races<A: Allocator + Copy>(
    alloc: A,
    tags: &PlaceTags<'_, A>,
    races: &[Race],
    first: EventId,
    second: EventId,
) -> Result<Vec<KindedRace, A>, Memory>
    ensures { IfOk result (λ others. (w : Word) → AreTagRaces tags.now.records.now (tag_at tags.now.records.now (number_at tags.now.index.now)) (w ∷ []) races.now → AreOthers tags.now.records.now (number_at tags.now.index.now) w first second others.items) }
{
    let rows = ordered_rows(alloc, tags, races, &[])?;
    let one_group = first.at.group == second.at.group;
    let (tag, other) = (tags.tag(first), tags.tag(second));
    let others = rows
        .iter()
        .copied()
        .filter(|row| { !row.kind.is_of(tag, other) || (one_group && !row.kind.one_group) })
        .collect(alloc)?;
    Ok(others)
}

/// The account of the least racing pair of a word, which has these races, one for each two tags.
fn account_of_pair<A: Allocator + Copy>(
    alloc: A,
    traces: &Traces<A>,
    tags: &PlaceTags<'_, A>,
    word: Word,
    races: &[Race],
    first: EventId,
    second: EventId,
) -> Result<Account<A>, Memory>
    requires same { tags.now.records.now ≡ traces.now }
    requires least { IsLeastRace traces.now word (first, second) }
    requires races { AreTagRaces traces.now (tag_at tags.now.records.now (number_at tags.now.index.now)) (word ∷ []) races.now }
    ensures { IfOk result (λ account. IsAccount traces.now (number_at tags.now.index.now) word (account_said account)) }
{
    let cause = cause_of(alloc, traces, word, first, second)?;
    let others = other_races(alloc, tags, races, first, second)?;
    let between = between_of(alloc, traces, tags.records, first, second)?;
    Ok(Account {
        first,
        second,
        first_details: details_of(traces, tags.records, first),
        second_details: details_of(traces, tags.records, second),
        between,
        cause,
        others,
    })
}

/// The account of the least racing pair of a word, if this index has the places, or `None` if the word is not racy.
fn account_by<A: Allocator + Copy>(
    alloc: A,
    traces: &Traces<A>,
    index: &PlaceIndex<'_, A>,
    word: Word,
) -> Result<Option<Account<A>>, Memory>
    ensures { IfOk result (λ account. IsAccountOf traces.now (number_at index.now) word (option_map account_said account)) }
{
    let records = Records::of(alloc, traces)?;
    let tags = PlaceTags {
        records: &records,
        index,
    };
    let (least, races) = explain_by_tags(alloc, traces, word, &tags)?;
    let Some((first, second)) = least else {
        return Ok(None);
    };
    let account = account_of_pair(alloc, traces, &tags, word, &races, first, second)?;
    Ok(Some(account))
}

/// The least racing pair of a word with what lies between its accesses, the cause of the race, and the word's other races, by what side
/// files say, or `None` if the word is not racy.
///
/// # Errors
/// `Memory`: out of memory.
#[tactic(auto, using(crate::proofs::KindLemmas::numbers_said))]
pub fn account_of<A: Allocator + Copy>(
    alloc: A,
    traces: &Traces<A>,
    sides: &Sides<'_>,
    word: Word,
) -> Result<Option<Account<A>>, Memory>
    ensures { IfOk result (λ account. IsAccountOf traces.now (place_number (sides_said sides.now).places) word (option_map account_said account)) }
{
    let index = PlaceIndex::of(alloc, sides.places)?;
    account_by(alloc, traces, &index, word)
}
