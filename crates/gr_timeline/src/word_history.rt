//! The answer about one word of a launch: its accesses, its history, and whether it is racy.

ghost use Rattle.std.specs.Prelude.{◌↔◌, IfOk, IsTrue};
ghost use Rattle.gr_timeline.specs.Accesses.{AreAccesses};
ghost use Rattle.gr_timeline.specs.Held.{IsHeldCount};
ghost use Rattle.gr_timeline.specs.Racy.{IsRacyIn};
ghost use Rattle.gr_timeline.specs.Histories.{IsHistory, lines_of};

use crate::accesses::{Accesses, accesses_of};
use crate::details::Details;
use crate::entry::Entry;
use crate::history::history_of;
use gr_model::event::{EventId, Word};
use gr_model::memory::Memory;
use gr_model::traces::Traces;
use indexmap::IndexSet;
use std::alloc::{AllocError, Allocator, Global};
use std::hash::{BuildHasherDefault, FoldHasher};

/// What is known of a word.
#[derive(Drop)]
pub struct HistoryAnswer<A: Allocator = Global> {
    /// All accesses to it, with the details of each.
    pub known: Accesses<A>,
    /// Its history.
    pub entries: Vec<Entry<A>, A>,
    /// How many accesses to it are held.
    pub held: usize,
    /// Whether it is racy.
    pub racy: bool,
}

impl<A: Allocator + Copy> HistoryAnswer<A> {
    /// The accesses that are held, with the details of each, by their groups and records.
    ///
    /// # Errors
    /// `AllocError`: out of memory.
    pub fn held_accesses(&self, alloc: A) -> Result<Vec<(EventId, Details), A>, AllocError> {
        if self.held == 0 {
            return Ok(Vec::new(alloc));
        }
        let mut judged: IndexSet<EventId, BuildHasherDefault<FoldHasher>, A> = IndexSet::new(alloc);
        for entry in &self.entries {
            judged.insert(entry.event)?;
        }
        let mut held = Vec::with_capacity(alloc, self.held)?;
        for (event, details) in &self.known {
            if !judged.contains(event) {
                held.push((*event, *details))?;
            }
        }
        Ok(held)
    }
}

impl<A: Allocator> HistoryAnswer<A> {
    /// The details of an access. They are looked for at a place first, which is then the one after them: as a group's accesses come in the
    /// history, their details mostly come too.
    pub fn details_at(&self, next: &mut usize, event: EventId) -> Option<Details> {
        let found = match self.known.get_index(*next) {
            Some((at, _)) if *at == event => *next,
            _ => self.known.get_index_of(&event)?,
        };
        *next = found.saturating_add(1);
        self.known.get_index(found).map(|(_, details)| *details)
    }
}

/// All accesses to a word of a launch, its history, how many accesses are held, and whether the word is racy.
///
/// # Errors
/// `Memory`: out of memory.
pub fn word_history_of<A: Allocator + Copy>(
    alloc: A,
    traces: &Traces<A>,
    word: Word,
) -> Result<HistoryAnswer<A>, Memory>
    ensures known { IfOk result (λ answer. AreAccesses traces.now word answer.known.entries) }
    ensures history { IfOk result (λ answer. IsHistory traces.now word (lines_of answer.entries.items)) }
    ensures held { IfOk result (λ answer. IsHeldCount traces.now word answer.held) }
    ensures racy { IfOk result (λ answer. IsTrue answer.racy ↔ IsRacyIn word traces.now) }
{
    let known = accesses_of(alloc, traces, word)?;
    let (entries, racy) = history_of(alloc, traces, word)?;
    // those of the history are the ones that are not held
    let held = known.len() - entries.len();
    Ok(HistoryAnswer {
        known,
        entries,
        held,
        racy,
    })
}
