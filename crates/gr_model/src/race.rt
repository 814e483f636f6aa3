//! Racy words, each with two events that race on it.

ghost use Rattle.std.specs.Prelude.{◌≢◌, ◌↔◌, IsTrue};
ghost use Rattle.gr_model.specs.RacePairs.{IsTurned};
ghost use Rattle.gr_model.specs.Reports.{EventBelow};

use crate::event::{EventId, Word};

/// A racy word, and two events that race on it.
#[derive(Clone, Copy, Debug, PartialEq, Eq)]
pub struct Race {
    /// The word.
    pub word: Word,
    /// The smaller event of the two, by group, item and index.
    pub first: EventId,
    /// The greater event.
    pub second: EventId,
}

/// Whether an event comes before another by its group, its item and its index.
pub fn is_below(first: EventId, second: EventId) -> bool
    ensures { IsTrue result ↔ EventBelow first second }
{
    first < second
}

/// Two events, the smaller one first.
pub fn turned(first: EventId, second: EventId) -> (EventId, EventId)
    ensures below { first ≢ second → EventBelow result.0 result.1 }
    ensures same { IsTurned first second result }
{
    if is_below(first, second) {
        (first, second)
    } else {
        (second, first)
    }
}
