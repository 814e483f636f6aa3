//! The worked rows by the sequencer, each with each growth refused in turn. The steps are made after all records were taken, or
//! after each record, or in one call with it if that is possible; by `step`, or by `handle` and `meet`.

use crate::calls::{handle, meet, step, take, take_and_handle};
use crate::rows::{ROWS, Record, Row, Told};
use crate::told::told;
use crate::trials::{Trial, holds_always};
use gr_model::event::ItemId;
use gr_sequencer::sequencer::Sequencer;
use std::alloc::Allocator;

/// How the steps are made.
#[derive(Clone, Copy, Debug, PartialEq, Eq)]
enum Way {
    /// By `step`, after all records were taken.
    Last,
    /// By `step`, after each record.
    Behind,
    /// By `take_and_handle` if it makes one, and else by `step`, after all records were taken.
    Together,
    /// By `handle` and `meet`, after all records were taken.
    ByCalls,
}

/// Steps until none is left.
fn rest<A: Allocator + Copy>(sequencer: &mut Sequencer<A>) -> Option<()> {
    for _time in 0..100_u32 {
        if step(sequencer)?.is_none() {
            return Some(());
        }
    }
    None
}

/// Takes a record of a row.
fn take_record<A: Allocator + Copy>(
    sequencer: &mut Sequencer<A>,
    record: &Record,
    way: Way,
) -> Option<()> {
    match way {
        Way::Last | Way::ByCalls => take(sequencer, record),
        Way::Behind => {
            take(sequencer, record)?;
            rest(sequencer)
        }
        Way::Together => take_and_handle(sequencer, record).map(|_| ()),
    }
}

/// Tries the next event of each of a group's items, and its next meeting.
fn go_round<A: Allocator + Copy>(sequencer: &mut Sequencer<A>, group: u16) -> Option<()> {
    for item in 0..4_u16 {
        let _made = handle(sequencer, ItemId { group, item })?;
    }
    let _met = meet(sequencer, group)?;
    Some(())
}

/// Rounds over both groups: more than any row has records.
fn go_rounds<A: Allocator + Copy>(sequencer: &mut Sequencer<A>) -> Option<()> {
    for _time in 0..11_u32 {
        go_round(sequencer, 1)?;
        go_round(sequencer, 0)?;
    }
    Some(())
}

/// Takes all records of a row, and makes the steps that are left.
fn follow<A: Allocator + Copy>(sequencer: &mut Sequencer<A>, row: &Row, way: Way) -> Option<()> {
    let (_, _, records, _) = row;
    for record in records.iter() {
        take_record(sequencer, record, way)?;
    }
    match way {
        Way::Last | Way::Behind | Way::Together => rest(sequencer),
        Way::ByCalls => go_rounds(sequencer),
    }
}

/// A row, by a new sequencer.
#[derive(Clone, Copy)]
struct Telling<'a> {
    row: &'a Row,
    way: Way,
}

impl Trial for Telling<'_> {
    fn holds<A: Allocator + Copy>(&self, sequencer: &mut Sequencer<A>) -> bool {
        let due = Told {
            races: (None, None),
            ..self.row.3
        };
        follow(sequencer, self.row, self.way).is_some() && told(sequencer) == Some(due)
    }
}

#[test]
fn rows_are_told_whatever_growth_is_refused(rt: HostRuntime) {
    for row in &ROWS {
        for way in [Way::Last, Way::Behind, Way::Together, Way::ByCalls] {
            let is_told = holds_always(rt.alloc(), row.1, &Telling { row, way });
            assert!(rt; is_told, "{}: {way:?}", row.0);
        }
    }
}
