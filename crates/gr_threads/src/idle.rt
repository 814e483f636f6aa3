//! How an idle thread waits: never in a busy loop for long.

use crossbeam_utils::Backoff;
use std::cell::Cell;
use std::thread;
use std::time::{Clock, Duration};

/// The first sleep of an idle thread, in microseconds. Each further sleep is twice as long. So a thread that waits for a busy
/// thread sleeps little, and a thread that waits for somebody outside wakes seldom.
const SHORTEST_NAP: u64 = 16;

/// The longest sleep, in microseconds. Each thread of a run that is given nothing wakes so often. That costs less than a
/// twentieth of a processor.
const LONGEST_NAP: u64 = 1024;

/// How long a thread has been idle.
#[derive(Drop)]
pub struct Idle {
    backoff: Backoff,
    // The next sleep, in microseconds.
    nap: Cell<u64>,
}

impl Idle {
    /// Of a thread that has just started.
    pub fn new() -> Idle {
        Idle {
            backoff: Backoff::new(),
            nap: Cell::new(SHORTEST_NAP),
        }
    }

    /// The thread found something to do.
    pub fn reset(&self) {
        self.backoff.reset();
        self.nap.set(SHORTEST_NAP);
    }

    /// The thread found nothing to do. It waits: at first it spins, then it yields the processor, then it sleeps.
    pub fn wait<R: Clock>(&self, rt: &R) {
        if !self.backoff.is_completed() {
            self.backoff.snooze();
            return;
        }
        let nap = self.nap.get();
        thread::sleep(rt, Duration::from_micros(nap));
        self.nap.set(nap.saturating_mul(2).min(LONGEST_NAP));
    }
}
