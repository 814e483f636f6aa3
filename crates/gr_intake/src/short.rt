//! Records that wait, in few bytes: without room for the releases that they name, since most name none.

ghost use Rattle.std.specs.Prelude.{◌≡◌, ◌<◌, ◌≤◌, Bool, drop, length, true};
ghost use Rattle.gr_intake.specs.Waiting as waiting;
ghost use Rattle.gr_intake.specs.Waiting.{behind_names, first_names};

use gr_model::event::{Event, Kind, Space};
use gr_model::names::Names;

/// A record without the releases that it names.
#[derive(Debug, Drop, Clone, Copy)]
pub(crate) struct Short {
    item: u16,
    kind: Kind,
    space: Space,
    pub(crate) has_names: bool,
    word: u32,
}

impl Short {
    /// The record without the releases that it names, and whether there are some.
    pub(crate) fn of(event: &Event, has_names: bool) -> Short
        ensures { result ≡ waiting.short_of event.now has_names }
    {
        Short {
            item: event.item,
            kind: event.kind,
            space: event.space,
            has_names,
            word: event.word,
        }
    }

    /// The record, which names these releases.
    pub(crate) fn with_names(&self, names: Names) -> Event
        ensures { result ≡ waiting.with_names self.now names }
    {
        Event {
            item: self.item,
            kind: self.kind,
            space: self.space,
            word: self.word,
            names,
        }
    }
}

/// The releases that the next record names, if it has some, and how many lists of them were then read.
pub(crate) fn next_names(lists: &[Names], read: usize, has_names: bool) -> (Names, usize)
    requires there { has_names ≡ true → read < length lists.now }
    requires within { read ≤ length lists.now }
    ensures names { result.0 ≡ first_names has_names (drop read lists.now) }
    ensures behind { drop result.1 lists.now ≡ behind_names has_names (drop read lists.now) }
    ensures within { result.1 ≤ length lists.now }
{
    if !has_names {
        return (Names::none(), read);
    }
    (lists[read], read + 1)
}
