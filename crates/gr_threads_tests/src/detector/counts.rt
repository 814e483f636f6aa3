//! A watch that counts what it sees.

use gr_detector::Watch;
use gr_model::event::Word;
use std::sync::atomic::{AtomicU64, Ordering};

/// Counts what it sees of groups 0 and 1 and of workers 0 and 1, and the races, with the sum of their words. It also counts what it
/// should not see: other groups and workers, local words, and a race of a word of the other worker.
#[derive(Default, Drop)]
pub struct Counts {
    pub takes: [AtomicU64; 2],
    pub accesses: [AtomicU64; 2],
    pub races: AtomicU64,
    pub racy_words: AtomicU64,
    pub strangers: AtomicU64,
}

impl Counts {
    /// All counts, in the order of the fields.
    pub fn all(&self) -> [u64; 7] {
        [
            self.takes[0].load(Ordering::SeqCst),
            self.takes[1].load(Ordering::SeqCst),
            self.accesses[0].load(Ordering::SeqCst),
            self.accesses[1].load(Ordering::SeqCst),
            self.races.load(Ordering::SeqCst),
            self.racy_words.load(Ordering::SeqCst),
            self.strangers.load(Ordering::SeqCst),
        ]
    }
}

impl Watch for Counts {
    fn at_take(&self, group: u16) {
        let takes = self.takes.get(usize::from(group));
        let counter = takes.unwrap_or(&self.strangers);
        counter.fetch_add(1, Ordering::SeqCst);
    }

    fn at_access(&self, worker: u16) {
        let accesses = self.accesses.get(usize::from(worker));
        let counter = accesses.unwrap_or(&self.strangers);
        counter.fetch_add(1, Ordering::SeqCst);
    }

    /// Each word has a bit of its own. The sum of all bits shows if a word came twice, or another word came.
    fn at_race(&self, worker: u16, word: &Word) {
        self.races.fetch_add(1, Ordering::SeqCst);
        match *word {
            Word::Global(number)
                if (50..100).contains(&number) && number % 2 == u32::from(worker) => {
                self.racy_words
                    .fetch_add(1 << (number - 50), Ordering::SeqCst)
            }
            _ => self.strangers.fetch_add(1, Ordering::SeqCst),
        };
    }
}
