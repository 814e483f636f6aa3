//! The least racing pair of a word.

ghost use Rattle.std.specs.Prelude.{IfOk, MatchOption};
ghost use Rattle.gr_model.specs.Prelude.{IsRacy, IsGrounded};
ghost use Rattle.gr_explain.specs.LeastRaces.{IsLeastRace};
ghost use Rattle.gr_explain.specs.Search.{StandsFor};

use crate::search::Search;
use gr_model::event::{EventId, Word};
use gr_model::memory::Memory;
use gr_model::traces::Traces;
use gr_shadow::lent::LentAccess;
use gr_taking::keeper::Keeper;
use gr_taking::traces::follow;
use std::alloc::Allocator;

/// Keeps the accesses to a word, and the least pair of them that races.
#[derive(Clone, Copy, Debug)]
struct WordKeeper {
    word: Word,
}

impl<A: Allocator + Copy> Keeper<A> for WordKeeper {
    type Kept = Search<A>;

    ghost stands = { λ keeper accesses search. StandsFor keeper.word accesses search };

    fn add(&self, kept: &mut Search<A>, access: &LentAccess<'_, A>) -> Result<(), Memory> {
        kept.add(self.word, access)
    }

    fn close(&self, kept: &mut Search<A>, group: u16) {}
}

/// The least racing pair of a word among the grounded events, the smaller event first, or `None` if the word is not
/// racy. Pairs go by their first event and then by their second.
///
/// It handles the events of the launch once, with clocks. Its time grows with the events, and with the accesses to the word
/// times their work-items; its memory with the accesses to the word, and with the events that wait for others.
///
/// # Errors
/// `Memory`: out of memory.
pub fn explain<A: Allocator + Copy>(
    alloc: A,
    traces: &Traces<A>,
    word: Word,
) -> Result<Option<(EventId, EventId)>, Memory>
    ensures { IfOk result (λ o. MatchOption o (¬ IsRacy traces.now (IsGrounded traces.now) word) (λ pair. IsLeastRace traces.now word pair)) }
{
    let mut search = Search::new(alloc);
    follow(alloc, traces, &WordKeeper { word }, &mut search)?;
    Ok(search.least)
}
