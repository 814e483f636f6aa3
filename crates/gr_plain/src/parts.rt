//! Words, events, places and the details of an access, as text.

ghost use Rattle.std.specs.Prelude.{Some};
ghost use Rattle.gr_plain.specs.Explanations.{event_text, word_text};

use gr_model::event::{EventId, Kind, Word};
use gr_places::buffers::element_of;
use gr_places::escaped::Escaped;
use gr_places::index::PlaceIndex;
use gr_places::places::Placed;
use gr_places::sides::Sides;
use gr_races::between::Crossing;
use gr_races::cause::Cause;
use gr_races::names::{atomic_of, cause_name, cause_sentence, kind_name};
use gr_text::line_text::{word_of_order, word_of_scope};
use gr_timeline::details::Details;
use std::alloc::{AllocError, Allocator};
use std::fmt::{self, Display, Formatter};

/// Whether memory sufficed to add text.
pub(crate) type Added = Result<(), AllocError>;

/// The memory and the number of a word.
#[derive(Clone, Copy)]
pub(crate) struct WordText(pub(crate) Word);

impl Display for WordText {
    ghost output = { λ w. Some (word_text w.0) };

    fn fmt<W: fmt::Write>(&self, f: &mut Formatter<W>) -> fmt::Result {
        match self.0 {
            Word::Global(number) => write!(f, "global {number}"),
            Word::Local(group, number) => write!(f, "local {group} {number}"),
        }
    }
}

/// An event.
#[derive(Clone, Copy)]
pub(crate) struct EventText(pub(crate) EventId);

impl Display for EventText {
    ghost output = { λ e. Some (event_text e.0) };

    fn fmt<W: fmt::Write>(&self, f: &mut Formatter<W>) -> fmt::Result {
        let EventId { at, index } = self.0;
        write!(f, "{} {} {index}", at.group, at.item)
    }
}

/// Where an event or a site is in the source, if that is known.
#[derive(Clone, Copy)]
pub(crate) struct AtText<'a>(pub(crate) Option<&'a str>);

impl Display for AtText<'_> {
    fn fmt<W: fmt::Write>(&self, f: &mut Formatter<W>) -> fmt::Result {
        match self.0 {
            None => Ok(()),
            Some(place) => write!(f, " at {}", Escaped(place)),
        }
    }
}

/// What a record does, and the scope and the order of an atomic one.
#[derive(Clone, Copy)]
pub(crate) struct KindText(pub(crate) Kind);

impl Display for KindText {
    fn fmt<W: fmt::Write>(&self, f: &mut Formatter<W>) -> fmt::Result {
        write!(f, "{}", kind_name(self.0))?;
        match atomic_of(self.0) {
            None => Ok(()),
            Some((scope, order)) => write!(f, " {} {}", word_of_scope(scope), word_of_order(order)),
        }
    }
}

/// The details of an access.
#[derive(Clone, Copy)]
pub(crate) struct DetailsText(pub(crate) Details);

impl Display for DetailsText {
    fn fmt<W: fmt::Write>(&self, f: &mut Formatter<W>) -> fmt::Result {
        let details = self.0;
        let kind = KindText(details.kind);
        write!(
            f,
            "{kind} record {} phase {}",
            details.number, details.phase
        )
    }
}

/// Adds the line of a word and two events that race on it, and the line of its buffer, if one is known.
pub(crate) fn put_race<A: Allocator>(
    text: &mut String<A>,
    sides: &Sides<'_>,
    word: Word,
    pair: (EventId, EventId),
) -> Added {
    let (race, first, second) = (WordText(word), EventText(pair.0), EventText(pair.1));
    writeln!(text, "race {race}: {first} with {second}")?;
    put_buffer(text, sides, word)
}

/// Adds the line of the buffer of a word, if one is known.
pub(crate) fn put_buffer<A: Allocator>(
    text: &mut String<A>,
    sides: &Sides<'_>,
    word: Word,
) -> Added {
    match element_of(sides.buffers, word) {
        None => Ok(()),
        Some(named) => writeln!(text, "buffer {}[{}]", Escaped(named.name), named.index),
    }
}

/// Adds the rest of a line: the site and the flags of a barrier, and where it is in the source.
pub(crate) fn put_site<A: Allocator>(
    text: &mut String<A>,
    places: &PlaceIndex<'_, A>,
    crossing: &Crossing,
) -> Added {
    let flags = match (crossing.global, crossing.local) {
        (false, false) => "-",
        (true, false) => "g",
        (false, true) => "l",
        (true, true) => "gl",
    };
    let at = AtText(places.place_of(Placed::Site(crossing.site)));
    writeln!(text, "site {} {flags}{at}", crossing.site)
}

/// Adds the line of a cause of a race on a word.
pub(crate) fn put_cause<A: Allocator>(text: &mut String<A>, word: Word, cause: Cause) -> Added {
    let sentence = cause_sentence(word, cause);
    writeln!(text, "cause {}: {sentence}", cause_name(cause))
}
