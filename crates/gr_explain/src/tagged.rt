//! The least racing pair of a word, and a race for each two tags that race on it, in one pass.

ghost use Rattle.std.specs.Prelude.{◌∷◌, [], IfOk, MatchOption};
ghost use Rattle.gr_model.specs.Prelude.{IsRacy, IsGrounded};
ghost use Rattle.gr_explain.specs.LeastRaces.{IsLeastRace};
ghost use Rattle.gr_explain.specs.Search.{StandsFor};
ghost use Rattle.gr_explain.specs.TagRaces.{AreTagRaces};
ghost use Rattle.gr_explain.specs.WordPairs.{StandForWords};

use crate::search::Search;
use crate::tags::Tags;
use crate::word_pairs::{WordPairs, add_access, list_words, pairs_of_words};
use gr_model::event::{EventId, Word};
use gr_model::memory::Memory;
use gr_model::race::Race;
use gr_model::traces::Traces;
use gr_shadow::lent::LentAccess;
use gr_taking::keeper::Keeper;
use gr_taking::traces::follow;
use std::alloc::Allocator;

/// Keeps the least pair that races on a word, and a race for each two tags that race on it.
#[derive(Drop)]
struct TaggedKeeper<'a, T> {
    word: Word,
    tags: &'a T,
}

/// What is kept of a word.
#[derive(Drop)]
struct Tagged<A: Allocator> {
    search: Search<A>,
    pairs: WordPairs<A>,
}

impl<A: Allocator + Copy, T: Tags> Keeper<A> for TaggedKeeper<'_, T> {
    type Kept = Tagged<A>;

    ghost stands = { λ keeper accesses kept. StandsFor keeper.word accesses kept.search
        × StandForWords (T.tag_of keeper.tags.now) (keeper.word ∷ []) accesses kept.pairs.entries };

    fn add(&self, kept: &mut Tagged<A>, access: &LentAccess<'_, A>) -> Result<(), Memory> {
        kept.search.add(self.word, access)?;
        add_access(&mut kept.pairs, self.tags, access)
    }

    fn close(&self, kept: &mut Tagged<A>, group: u16) {}
}

/// The least racing pair of a word, as `explain` gives it, and a race for each two tags that race on the word, as `races_by_tags` does.
///
/// # Errors
/// `Memory`: out of memory.
pub fn explain_by_tags<A: Allocator + Copy, T: Tags>(
    alloc: A,
    traces: &Traces<A>,
    word: Word,
    tags: &T,
) -> Result<(Option<(EventId, EventId)>, Vec<Race, A>), Memory>
    ensures least { IfOk result (λ r. MatchOption r.0 (¬ IsRacy traces.now (IsGrounded traces.now) word) (λ pair. IsLeastRace traces.now word pair)) }
    ensures races { IfOk result (λ r. AreTagRaces traces.now (T.tag_of tags.now) (word ∷ []) r.1.items) }
{
    let mut kept = Tagged {
        search: Search::new(alloc),
        pairs: pairs_of_words(alloc, &[word])?,
    };
    follow(alloc, traces, &TaggedKeeper { word, tags }, &mut kept)?;
    let races = list_words(alloc, &kept.pairs, &[word])?;
    Ok((kept.search.least, races))
}
