//! What the record of a barrier says, without its item. A barrier names no releases.

ghost use Rattle.std.specs.Prelude.{◌≡◌, ◌↔◌, IsTrue};
ghost use Rattle.gr_lanes.specs.Kept as kept;

use gr_model::event::{Event, Kind, Space};
use gr_model::names::Names;

/// The record of a barrier, without its item and without the places for names.
#[derive(Debug, Drop, Clone, Copy)]
pub(crate) struct Bare {
    kind: Kind,
    space: Space,
    word: u32,
}

impl Bare {
    /// What a record says, without its item and the releases that it names.
    pub(crate) fn of(event: &Event) -> Bare
        ensures { result ≡ kept.bare_of event.now }
    {
        Bare {
            kind: event.kind,
            space: event.space,
            word: event.word,
        }
    }

    /// The whole record, for this item.
    pub(crate) fn of_item(&self, item: u16) -> Event
        ensures { result ≡ kept.of_item item self.now }
    {
        Event {
            item,
            kind: self.kind,
            space: self.space,
            word: self.word,
            names: Names::none(),
        }
    }

    /// Whether both say the same.
    pub(crate) fn is(&self, other: &Bare) -> bool
        ensures { IsTrue result ↔ (self.now ≡ other.now) }
    {
        self.kind == other.kind && self.space == other.space && self.word == other.word
    }
}
