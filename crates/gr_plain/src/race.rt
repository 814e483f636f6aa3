//! The text of the least racing pair of a word, alone or with what its accesses are, what is between them, the cause of their race, and
//! what side files say.

ghost use Rattle.std.specs.Prelude.{◌≡◌, IfOk};
ghost use Rattle.gr_plain.specs.Explanations.{explanation_line};

use crate::parts::{
    Added, AtText, DetailsText, EventText, WordText, put_cause, put_race, put_site,
};
use gr_model::event::{EventId, Name, Word, word_of};
use gr_model::memory::Memory;
use gr_places::index::PlaceIndex;
use gr_places::places::Placed;
use gr_places::sides::Sides;
use gr_races::account::Account;
use gr_races::between::DetailedEvent;
use gr_races::kinds::{KindedRace, Operation};
use gr_races::names::operation_name;
use gr_timeline::details::Details;
use std::alloc::Allocator;

/// How many barriers between two accesses are shown at most.
const MOST_BARRIERS: usize = 8;

/// A text, with the places of events in the source.
#[derive(Drop)]
struct PlacedText<'a, A: Allocator> {
    text: String<A>,
    places: PlaceIndex<'a, A>,
}

impl<A: Allocator> PlacedText<'_, A> {
    /// Adds the rest of a line: where an event is in the source.
    fn put_at(&mut self, event: EventId) -> Added {
        let at = AtText(self.places.place_of(Placed::Event(event)));
        writeln!(self.text, "{at}")
    }

    /// Adds a label, the details of an access, and where it is in the source.
    fn put_details(&mut self, label: &str, event: EventId, details: &Details) -> Added {
        write!(self.text, "{label} {}", DetailsText(*details))?;
        self.put_at(event)
    }

    /// Adds half of a hand-over, if there is one: its word, and the releases that an acquire names.
    fn put_half(&mut self, label: &str, half: Option<DetailedEvent>) -> Added {
        let Some(half) = half else {
            return Ok(());
        };
        let (event, details) = (EventText(half.event), DetailsText(half.details));
        write!(self.text, "{label} {event} {details}")?;
        if let Some(word) = word_of(half.event.at.group, &half.said) {
            write!(self.text, " on {}", WordText(word))?;
        }
        let (names, mut between) = (half.said.names.as_slice(), " from");
        for Name { at, release } in names {
            write!(self.text, "{between} {} {} {release}", at.group, at.item)?;
            between = ",";
        }
        if names.is_empty() && half.said.kind.is_acquire() {
            write!(self.text, " from none")?;
        }
        self.put_at(half.event)
    }

    /// Adds what an access does, and where it is in the source.
    fn put_operation(&mut self, label: &str, operation: Operation, event: EventId) -> Added {
        write!(self.text, "{label} {}", operation_name(operation))?;
        self.put_at(event)
    }

    /// Adds what the accesses of a word's racing pair are, what is between them, the cause, and the word's other races.
    fn put_account(&mut self, word: Word, account: &Account<A>) -> Added {
        self.put_details("first", account.first, &account.first_details)?;
        self.put_details("second", account.second, &account.second_details)?;
        let crossings = account.between.crossings.as_slice();
        for crossing in crossings.iter().take(MOST_BARRIERS) {
            write!(self.text, "barrier {} ", crossing.instance)?;
            put_site(&mut self.text, &self.places, crossing)?;
        }
        match crossings.len().saturating_sub(MOST_BARRIERS) {
            0 => {}
            more => writeln!(self.text, "barrier and {more} more")?,
        }
        self.put_half("release after first", account.between.release)?;
        self.put_half("acquire before second", account.between.acquire)?;
        self.put_half("release after second", account.between.release_back)?;
        self.put_half("acquire before first", account.between.acquire_back)?;
        put_cause(&mut self.text, word, account.cause)?;
        self.put_others(&account.others)
    }

    /// Adds the other races of a word: the two accesses of each, what they do, and where they are in the source.
    fn put_others(&mut self, others: &[KindedRace]) -> Added {
        for KindedRace { kind, race } in others {
            let (first, second) = (EventText(race.first), EventText(race.second));
            writeln!(self.text, "also {first} with {second}")?;
            self.put_operation("first", kind.first.operation, race.first)?;
            self.put_operation("second", kind.second.operation, race.second)?;
        }
        Ok(())
    }
}

/// The line of a word and its racing pair, or that it has none.
///
/// # Errors
/// `Memory`: out of memory.
pub fn race_text<A: Allocator>(
    alloc: A,
    word: Word,
    pair: Option<(EventId, EventId)>,
) -> Result<Vec<u8, A>, Memory>
    ensures { IfOk result (λ text. text.items ≡ explanation_line word pair) }
{
    let word = WordText(word);
    let text = match pair {
        None => format!(in alloc; "no race {word}\n"),
        Some((first, second)) => {
            let (first, second) = (EventText(first), EventText(second));
            format!(in alloc; "race {word}: {first} with {second}\n")
        }
    };
    Ok(text?.into_bytes())
}

/// The text of a word and its least racing pair: what the two accesses are, what is between them, the cause of their race and the
/// word's other races, with what side files say; or that the word has no race, and how many accesses to it are held.
///
/// # Errors
/// `Memory`: out of memory.
pub fn account_text<A: Allocator + Copy>(
    alloc: A,
    sides: &Sides<'_>,
    word: Word,
    account: Option<&Account<A>>,
    held: usize,
) -> Result<Vec<u8, A>, Memory> {
    let mut text = String::new(alloc);
    let Some(account) = account else {
        writeln!(text, "no race {}", WordText(word))?;
        if held > 0 {
            writeln!(text, "held {held}")?;
        }
        return Ok(text.into_bytes());
    };
    put_race(&mut text, sides, word, (account.first, account.second))?;
    let places = PlaceIndex::of(alloc, sides.places)?;
    let mut placed = PlacedText { text, places };
    placed.put_account(word, account)?;
    Ok(placed.text.into_bytes())
}
