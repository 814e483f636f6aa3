//! The worked rows: the records of a launch, and its summary after all of them were taken and no step is left.

use gr_model::event::{Event, ItemId, Kind, Name, Order, Scope, Space, Word};
use gr_model::names::Names;
use gr_model::report::{AcquireCause, DivergenceCause};

/// A record: its group, its item, its kind, its memory, its word or site, and the releases that it names, two at most: of each its group,
/// its item and its number.
pub(crate) type Record = (u16, u16, Kind, Space, u32, &'static [(u16, u16, u32)]);

/// A divergent instance: its group, its number, and the cause.
pub(crate) type Diverges = (u16, u32, DivergenceCause);

/// An unmatched acquire: its group, its item, its place among the item's events, and the cause.
pub(crate) type Unmatches = (u16, u16, u32, AcquireCause);

/// The summary at the end: the first two of each list, and the numbers.
#[derive(Clone, Copy, Debug, PartialEq, Eq)]
pub(crate) struct Told {
    pub(crate) races: (Option<Word>, Option<Word>),
    pub(crate) divergences: (Option<Diverges>, Option<Diverges>),
    pub(crate) unmatched: (Option<Unmatches>, Option<Unmatches>),
    pub(crate) cut: (Option<u16>, Option<u16>),
    pub(crate) held: u64,
    pub(crate) groups: u16,
    pub(crate) items: u32,
    pub(crate) records: u64,
}

/// The summary of a group with one item and no records but its end.
pub(crate) const NOTHING: Told = Told {
    races: (None, None),
    divergences: (None, None),
    unmatched: (None, None),
    cut: (None, None),
    held: 0,
    groups: 1,
    items: 1,
    records: 1,
};

/// A row: its name, the sizes of its groups, its records, and its summary at the end.
pub(crate) type Row = (&'static str, &'static [u16], &'static [Record], Told);

fn name_of((group, item, release): (u16, u16, u32)) -> Name {
    Name {
        at: ItemId { group, item },
        release,
    }
}

/// The record as an event.
pub(crate) fn event_of(record: &Record) -> Event {
    let (_, item, kind, space, word, names) = *record;
    let names = match names {
        [] => None,
        [only] => Names::new(&[name_of(*only)]),
        [first, second, ..] => Names::new(&[name_of(*first), name_of(*second)]),
    };
    Event {
        item,
        kind,
        space,
        word,
        names: names.unwrap_or(Names::none()),
    }
}

pub(crate) const GLOBAL: Space = Space::Global;

pub(crate) const LOCAL: Space = Space::Local;

pub(crate) const READ: Kind = Kind::Read;

pub(crate) const WRITE: Kind = Kind::Write;

pub(crate) const ACQUIRE: Kind = Kind::Load(Scope::Device, Order::Acquire);

pub(crate) const RELEASE: Kind = Kind::Store(Scope::Device, Order::Release);

pub(crate) const BARRIER: Kind = Kind::Barrier {
    global: true,
    local: true,
};

pub(crate) const END: Kind = Kind::End { cut: false };

const CUT: Kind = Kind::End { cut: true };

/// All rows. They meet each growth: of barriers that meet and that diverge, of releases to one and to several, of names, of what
/// waits, and of each list of a summary.
pub(crate) static ROWS: [Row; 6] = [
    (
        "an item never comes to the second barrier",
        &[3],
        &[
            (0, 0, BARRIER, GLOBAL, 1, &[]),
            (0, 1, BARRIER, GLOBAL, 1, &[]),
            (0, 2, BARRIER, GLOBAL, 1, &[]),
            (0, 0, WRITE, GLOBAL, 16, &[]),
            (0, 0, BARRIER, GLOBAL, 2, &[]),
            (0, 1, BARRIER, GLOBAL, 2, &[]),
            (0, 1, READ, GLOBAL, 16, &[]),
            (0, 0, END, GLOBAL, 0, &[]),
        ],
        Told {
            races: (Some(Word::Global(16)), None),
            divergences: (Some((0, 1, DivergenceCause::Missing)), None),
            items: 3,
            records: 8,
            ..NOTHING
        },
    ),
    (
        "two sites",
        &[2],
        &[
            (0, 0, BARRIER, GLOBAL, 1, &[]),
            (0, 1, BARRIER, GLOBAL, 2, &[]),
            (0, 0, END, GLOBAL, 0, &[]),
        ],
        Told {
            divergences: (Some((0, 0, DivergenceCause::Site)), None),
            items: 2,
            records: 3,
            ..NOTHING
        },
    ),
    (
        "a release that is not there, and a cut stream",
        &[1, 3],
        &[
            (0, 0, CUT, GLOBAL, 0, &[]),
            (1, 0, ACQUIRE, GLOBAL, 20, &[(0, 0, 0)]),
            (1, 0, WRITE, GLOBAL, 16, &[]),
            (1, 1, WRITE, GLOBAL, 24, &[]),
            (1, 2, READ, GLOBAL, 24, &[]),
            (1, 1, READ, GLOBAL, 16, &[]),
            (1, 0, END, GLOBAL, 0, &[]),
        ],
        Told {
            races: (Some(Word::Global(24)), None),
            unmatched: (Some((1, 0, 0, AcquireCause::Absent)), None),
            cut: (Some(0), None),
            held: 2,
            groups: 2,
            items: 4,
            records: 7,
            ..NOTHING
        },
    ),
    (
        "two acquires that wait for one another",
        &[1, 1],
        &[
            (1, 0, ACQUIRE, GLOBAL, 24, &[(0, 0, 0)]),
            (0, 0, ACQUIRE, GLOBAL, 20, &[(1, 0, 0)]),
            (1, 0, RELEASE, GLOBAL, 20, &[]),
            (0, 0, RELEASE, GLOBAL, 24, &[]),
            (1, 0, END, GLOBAL, 0, &[]),
            (0, 0, END, GLOBAL, 0, &[]),
        ],
        Told {
            unmatched: (
                Some((0, 0, 0, AcquireCause::Behind)),
                Some((1, 0, 0, AcquireCause::Behind)),
            ),
            held: 4,
            groups: 2,
            items: 2,
            records: 6,
            ..NOTHING
        },
    ),
    (
        "a release to two items, and one of them to the first",
        &[3],
        &[
            (0, 0, WRITE, LOCAL, 16, &[]),
            (0, 0, RELEASE, LOCAL, 20, &[]),
            (0, 1, ACQUIRE, LOCAL, 20, &[(0, 0, 0)]),
            (0, 1, READ, LOCAL, 16, &[]),
            (0, 2, ACQUIRE, LOCAL, 20, &[(0, 0, 0)]),
            (0, 2, READ, LOCAL, 16, &[]),
            (0, 2, RELEASE, LOCAL, 24, &[]),
            (0, 0, ACQUIRE, LOCAL, 24, &[(0, 2, 0)]),
            (0, 0, WRITE, LOCAL, 16, &[]),
            (0, 0, END, GLOBAL, 0, &[]),
        ],
        Told {
            races: (Some(Word::Local(0, 16)), None),
            items: 3,
            records: 10,
            ..NOTHING
        },
    ),
    (
        "an acquire of two releases in another group, which comes before both",
        &[2, 1],
        &[
            (1, 0, ACQUIRE, GLOBAL, 20, &[(0, 0, 0), (0, 1, 0)]),
            (0, 0, WRITE, GLOBAL, 16, &[]),
            (1, 0, READ, GLOBAL, 16, &[]),
            (0, 0, RELEASE, GLOBAL, 20, &[]),
            (1, 0, READ, GLOBAL, 24, &[]),
            (0, 1, WRITE, GLOBAL, 24, &[]),
            (1, 0, END, GLOBAL, 0, &[]),
            (0, 1, RELEASE, GLOBAL, 20, &[]),
            (0, 0, END, GLOBAL, 0, &[]),
        ],
        Told {
            groups: 2,
            items: 3,
            records: 9,
            ..NOTHING
        },
    ),
];
