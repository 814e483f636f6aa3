//! What a report names beside racy words: divergent barrier instances and unmatched acquires.

use crate::event::EventId;

/// Why an instance of barriers is divergent: the first of these causes that is there.
#[derive(Clone, Copy, Debug, PartialEq, Eq)]
pub enum DivergenceCause {
    /// The group's stream is complete, and an item has no barrier of the instance.
    Missing,
    /// Two barriers of the instance have different sites.
    Site,
    /// Two barriers of the instance have different memory flags.
    Flags,
}

/// A divergent instance of a work-group's barriers.
#[derive(Clone, Copy, Debug, PartialEq, Eq)]
pub struct Divergence {
    /// The number of the work-group, from 0.
    pub group: u16,
    /// The number of the instance: the place of its barrier among the barriers of each item, from 0.
    pub instance: u32,
    /// Why the instance is divergent.
    pub cause: DivergenceCause,
}

/// Why an acquire is unmatched: the first of these causes that is there.
#[derive(Clone, Copy, Debug, PartialEq, Eq)]
pub enum AcquireCause {
    /// The launch has no release of that name.
    Absent,
    /// The release is on another word.
    OtherWord,
    /// The release is held itself.
    Behind,
}

/// An unmatched acquire: it names a release, and it is held though all events before it in its item are grounded
/// (docs/MODEL.md, "What waits for what").
#[derive(Clone, Copy, Debug, PartialEq, Eq)]
pub struct Unmatched {
    /// The acquire.
    pub event: EventId,
    /// Why it is unmatched.
    pub cause: AcquireCause,
}
