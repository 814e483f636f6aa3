//! The accesses to one word of a launch, in an order in which they can be handled.

ghost use Rattle.std.specs.Prelude.{◌↔◌, Contains, IfOk, IsTrue, List};
ghost use Rattle.gr_clocks.specs.ClockedAccess.{ClockedAccess};
ghost use Rattle.gr_shadow.specs.Clashes.{IsHitIn};
ghost use Rattle.gr_shadow.specs.StandsFor.{StandsFor};
ghost use Rattle.gr_timeline.specs.Histories.{IsHistory, IsKeptOf, lines_of};
ghost use Rattle.gr_timeline.specs.Racy.{IsRacyIn};

use crate::entry::Entry;
use gr_model::event::{EventId, Word};
use gr_model::memory::Memory;
use gr_model::traces::Traces;
use gr_shadow::lent::LentAccess;
use gr_shadow::shadows::Shadows;
use gr_taking::keeper::Keeper;
use gr_taking::traces::follow;
use std::alloc::Allocator;

/// Keeps the accesses to a word, and its shadow.
#[derive(Clone, Copy, Debug)]
struct WordKeeper {
    word: Word,
}

/// What is kept of a word.
#[derive(Drop)]
struct KeptWord<A: Allocator> {
    entries: Vec<Entry<A>, A>,
    /// Shadows of this word alone.
    shadows: Shadows<A>,
}

impl<A: Allocator + Copy> Keeper<A> for WordKeeper {
    type Kept = KeptWord<A>;

    ghost stands = { λ keeper accesses kept. IsKeptOf keeper.word accesses kept.entries.items kept.shadows };

    fn add(&self, kept: &mut KeptWord<A>, access: &LentAccess<'_, A>) -> Result<(), Memory> {
        if access.word == self.word {
            kept.shadows.apply_lent(access)?;
            let event = EventId {
                at: access.item,
                index: access.index,
            };
            let owned = access.owned()?;
            kept.entries.push(Entry {
                event,
                clock: owned.clock,
            })?;
        }
        Ok(())
    }

    fn close(&self, kept: &mut KeptWord<A>, group: u16) {}
}

/// Whether a word is one of these.
fn has(words: &[Word], word: Word) -> bool
    ensures { IsTrue result ↔ Contains words.now word }
{
    words.contains(&word)
}

/// Whether a word is hit in the accesses that the shadows represent.
fn is_hit<A: Allocator + Copy>(shadows: &Shadows<A>, word: Word) -> Result<bool, Memory>
    ensures { (accesses : List ClockedAccess) → StandsFor accesses shadows.now → IfOk result (λ hit. IsTrue hit ↔ IsHitIn accesses word) }
{
    let words = shadows.racy()?;
    Ok(has(&words, word))
}

/// The accesses to a word that are grounded, each once, in a lawful order of the launch, and each with those above it that
/// happen before it; and whether the word is racy.
///
/// It handles the events of the launch once. Its time grows with the events, its memory with the accesses to the word and with the
/// events that wait for others: which accesses happen before one is in its clock.
///
/// # Errors
/// `Memory`: out of memory.
pub fn history_of<A: Allocator + Copy>(
    alloc: A,
    traces: &Traces<A>,
    word: Word,
) -> Result<(Vec<Entry<A>, A>, bool), Memory>
    ensures history { IfOk result (λ h. IsHistory traces.now word (lines_of h.0.items)) }
    ensures racy { IfOk result (λ h. IsTrue h.1 ↔ IsRacyIn word traces.now) }
{
    let mut kept = KeptWord {
        entries: Vec::new(alloc),
        shadows: Shadows::new(alloc),
    };
    follow(alloc, traces, &WordKeeper { word }, &mut kept)?;
    let racy = is_hit(&kept.shadows, word)?;
    Ok((kept.entries, racy))
}
