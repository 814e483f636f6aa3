//! Barriers that are taken one by one, with all steps made after each.

use crate::calls::{step, take};
use crate::rows::{BARRIER, GLOBAL};
use crate::trials::{Trial, holds_always};
use gr_sequencer::handled::Handled;
use gr_sequencer::sequencer::Sequencer;
use std::alloc::Allocator;

/// Barriers of one group: their items and sites, in the order in which they are taken.
type Barriers = [(u16, u32); 4];

/// What is done after a barrier: how many barriers are handled one by one, and whether an instance meets.
type Done = (u32, bool);

/// A row: its name, its barriers, and what is done after each.
type Row = (&'static str, Barriers, [Done; 4]);

static ROWS: [Row; 5] = [
    (
        "all come with one site, side by side",
        [(0, 7), (1, 7), (2, 7), (3, 7)],
        [(0, false), (0, false), (0, false), (0, true)],
    ),
    (
        "all come with one site, the neighbours last",
        [(2, 7), (0, 7), (3, 7), (1, 7)],
        [(0, false), (0, false), (0, false), (0, true)],
    ),
    (
        "the last to come differs, and all go on",
        [(0, 7), (1, 7), (2, 7), (3, 8)],
        [(0, false), (0, false), (0, false), (4, false)],
    ),
    (
        "one differs whose neighbours have not come, and those that come go on by themselves",
        [(0, 7), (3, 8), (1, 7), (2, 8)],
        [(0, false), (2, false), (1, false), (1, false)],
    ),
    (
        "one differs from its neighbours, and they go on",
        [(0, 7), (2, 7), (1, 8), (3, 7)],
        [(0, false), (0, false), (3, false), (1, false)],
    ),
];

/// Makes steps until none is left, which is after few.
fn steps<A: Allocator + Copy>(sequencer: &mut Sequencer<A>) -> Option<Done> {
    let mut done: Done = (0, false);
    for _ in 0..8 {
        match step(sequencer)? {
            None => return Some(done),
            Some(Handled::One { .. }) => done.0 = done.0.checked_add(1)?,
            Some(Handled::Meet { .. }) => done.1 = true,
        }
    }
    None
}

/// What a new sequencer does after each of the barriers.
fn seen<A: Allocator + Copy>(
    sequencer: &mut Sequencer<A>,
    barriers: &Barriers,
) -> Option<[Done; 4]> {
    let mut all = [(0, false); 4];
    for (done, (item, site)) in all.iter_mut().zip(barriers.iter()) {
        take(sequencer, &(0, *item, BARRIER, GLOBAL, *site, &[]))?;
        *done = steps(sequencer)?;
    }
    Some(all)
}

/// A row, by a new sequencer.
#[derive(Clone, Copy)]
struct Turns<'a>(&'a Row);

impl Trial for Turns<'_> {
    fn holds<A: Allocator + Copy>(&self, sequencer: &mut Sequencer<A>) -> bool {
        let (_, barriers, done) = self.0;
        seen(sequencer, barriers) == Some(*done)
    }
}

#[test]
fn who_goes_on_behind_each_barrier(rt: HostRuntime) {
    for row in &ROWS {
        assert!(rt; holds_always(rt.alloc(), &[4], &Turns(row)), "{}", row.0);
    }
}
