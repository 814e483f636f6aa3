//! Watches that wait in a call until something else happens.

use gr_detector::Watch;
use gr_model::event::Word;
use std::sync::atomic::{AtomicU64, Ordering};
use std::thread::yield_now;

/// How often a test yields at most while it waits.
const TURNS: u32 = 10_000_000;

/// Waits until a counter is at least so great. Gives whether it became so great.
pub fn came(counter: &AtomicU64, least: u64) -> bool {
    for _ in 0..TURNS {
        if counter.load(Ordering::SeqCst) >= least {
            return true;
        }
        yield_now();
    }
    false
}

/// Waits until a counter is at least so great, and counts the waits in which it does not become so great.
fn wait(counter: &AtomicU64, least: u64, missed: &AtomicU64) {
    if !came(counter, least) {
        missed.fetch_add(1, Ordering::SeqCst);
    }
}

/// Holds worker 0 at its accesses until worker 1 comes to one.
#[derive(Default, Drop)]
pub struct Apart {
    pub seconds: AtomicU64,
    pub missed: AtomicU64,
}

impl Watch for Apart {
    fn at_take(&self, _group: u16) {}

    fn at_access(&self, worker: u16) {
        if worker == 1 {
            self.seconds.fetch_add(1, Ordering::SeqCst);
        } else {
            wait(&self.seconds, 1, &self.missed);
        }
    }

    fn at_race(&self, _worker: u16, _word: &Word) {}
}

/// Holds the sequencer at its first take until an event was sent, and the worker at its first access until the sequencer
/// has taken a second event.
#[derive(Default, Drop)]
pub struct Turns {
    pub sent: AtomicU64,
    pub takes: AtomicU64,
    pub accesses: AtomicU64,
    pub missed: AtomicU64,
}

impl Watch for Turns {
    fn at_take(&self, _group: u16) {
        if self.takes.fetch_add(1, Ordering::SeqCst) == 0 {
            wait(&self.sent, 1, &self.missed);
        }
    }

    fn at_access(&self, _worker: u16) {
        if self.accesses.fetch_add(1, Ordering::SeqCst) == 0 {
            wait(&self.takes, 2, &self.missed);
        }
    }

    fn at_race(&self, _worker: u16, _word: &Word) {}
}
