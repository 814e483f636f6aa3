//! The records that are to come of one work-group's stream.

ghost use Rattle.std.specs.Prelude.{◌≡◌, ◌∷◌, [], ℕ, List, MatchOption, map};
ghost use Rattle.gr_model.specs.declared.event.Event.{Event as AnyEvent};
ghost use Rattle.gr_taking.specs.Sources.{ListedRecords};

use gr_model::event::Event;
use std::marker::Model;

/// What has the records that are to come of a group's stream, one after another.
pub trait Source {
    /// What is known of the stream beside its records: its group at least.
    type Header;

    // what is known of the stream, the group that this tells, and the records that are to come
    ghost header: { Self → Self.Header };

    ghost group_of: { Self.Header → ℕ };

    ghost coming: { Self → List AnyEvent };

    /// The stream's group.
    fn group(&self) -> u16
        ensures { result ≡ group_of (header self.now) };

    /// How many work-items the group has.
    fn items(&self) -> u16;

    /// The next record.
    fn next(&mut self) -> Option<Event>
        ensures header { header self.new ≡ header self.old }
        ensures next { MatchOption result ((coming self.old ≡ []) × (coming self.new ≡ [])) (λ e. coming self.old ≡ e ∷ coming self.new) };
}

/// How the records of a launch are read: as they are, or changed.
pub trait Reading: Copy {
    // what is read where this record is
    ghost read_as: { Self → AnyEvent → AnyEvent };

    /// What is read where a list has this record.
    fn read(&self, event: &Event) -> Event
        ensures { result ≡ read_as self.now event.now };
}

/// Each record is read as it is.
#[derive(Clone, Copy, Debug)]
pub(crate) struct Unchanged;

impl Reading for Unchanged {
    ghost read_as = { λ r event. event };

    fn read(&self, event: &Event) -> Event
        ensures { result ≡ event.now }
    {
        *event
    }
}

/// The records of a list that are to come, each as it is read.
#[derive(Debug, Drop)]
pub(crate) struct ListSource<'l, R: Reading> {
    group: u16,
    items: u16,
    rest: &'l [Event],
    reading: R,
}

impl<'l, R: Reading> Model for ListSource<'l, R> {
    ghost use Rattle.std.specs.Prelude.{map};
    ghost use Rattle.gr_taking.specs.Sources.{ListedRecords};

    ghost Value = { ListedRecords };

    ghost view = { λ s. record { group = s.group; records = map (R.read_as s.reading) s.rest.now } };
}

impl<'l, R: Reading> ListSource<'l, R> {
    /// All records of a group's list, which are to come.
    pub(crate) fn new(group: u16, items: u16, list: &'l [Event], reading: R) -> ListSource<'l, R>
        ensures { result ≡ record { group = group; records = map (R.read_as reading) list.now } }
    {
        ListSource {
            group,
            items,
            rest: list,
            reading,
        }
    }
}

impl<'l, R: Reading> Source for ListSource<'l, R> {
    type Header = u16;

    ghost header = { λ s. s.group };

    ghost group_of = { λ g. g };

    ghost coming = { λ s. s.records };

    fn group(&self) -> u16
        ensures { result ≡ self.now.group }
    {
        self.group
    }

    fn items(&self) -> u16 {
        self.items
    }

    fn next(&mut self) -> Option<Event>
        ensures header { self.new.group ≡ self.old.group }
        ensures next { MatchOption result ((self.old.records ≡ []) × (self.new.records ≡ [])) (λ e. self.old.records ≡ e ∷ self.new.records) }
    {
        let event = self.rest.split_off_first()?;
        Some(self.reading.read(event))
    }
}
