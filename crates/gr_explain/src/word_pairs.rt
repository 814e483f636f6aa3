//! The races of some words of a launch, one for each two tags that race on a word.

ghost use Rattle.std.specs.Prelude.{◌≡◌, ◌∷◌, ◌++◌, [], ℕ, AllPairs, IfOk, List, OnOk};
ghost use Rattle.std.specs.Map.{lookup};
ghost use Rattle.gr_model.specs.declared.event.EventId.{EventId as AnyEvent};
ghost use Rattle.gr_model.specs.Prelude.{WordBelow};
ghost use Rattle.gr_clocks.specs.ClockedAccess.{ClockedAccess};
ghost use Rattle.gr_shadow.specs.Kept.{same_word};
ghost use Rattle.gr_shadow.specs.Lent.{lent_clocked};
ghost use Rattle.gr_explain.specs.TagRaces.{AreTagRaces};
ghost use Rattle.gr_explain.specs.WordPairs.{StandForWords, races_at, races_of};

use crate::seen::event_of;
use crate::tag_pairs::TagPairs;
use crate::tags::Tags;
use gr_model::event::Word;
use gr_model::memory::Memory;
use gr_model::race::Race;
use gr_model::traces::Traces;
use gr_shadow::lent::LentAccess;
use gr_taking::keeper::Keeper;
use gr_taking::traces::follow;
use indexmap::IndexMap;
use std::alloc::Allocator;
use std::hash::{BuildHasherDefault, FoldHasher};

/// For each of some words, a race for each two tags that race on it.
pub(crate) type WordPairs<A> = IndexMap<Word, TagPairs<A>, BuildHasherDefault<FoldHasher>, A>;

/// No accesses to these words.
pub(crate) fn pairs_of_words<A: Allocator + Copy>(
    alloc: A,
    words: &[Word],
) -> Result<WordPairs<A>, Memory>
    ensures { IfOk result (λ pairs. (tag_of : AnyEvent → ℕ) → StandForWords tag_of words.now [] pairs.entries) }
{
    let mut pairs = IndexMap::new(alloc);
    for word in words {
        pairs.insert(*word, TagPairs::new(alloc))?;
    }
    Ok(pairs)
}

/// Adds an access, if it is to one of the words.
pub(crate) fn add_access<A: Allocator + Copy, T: Tags>(
    pairs: &mut WordPairs<A>,
    tags: &T,
    access: &LentAccess<'_, A>,
) -> Result<(), Memory>
    ensures { OnOk result ((words : List Word) (accesses : List ClockedAccess) → StandForWords (T.tag_of tags.now) words accesses pairs.old.entries → StandForWords (T.tag_of tags.now) words (accesses ++ lent_clocked access.now ∷ []) pairs.new.entries) }
{
    match pairs.get_mut(&access.word) {
        None => Ok(()),
        Some(found) => found.add(access, tags.tag(event_of(access))),
    }
}

/// Keeps, for each of some words, a race for each two tags that race on it.
#[derive(Drop)]
struct WordsKeeper<'a, T> {
    words: &'a [Word],
    tags: &'a T,
}

impl<A: Allocator + Copy, T: Tags> Keeper<A> for WordsKeeper<'_, T> {
    type Kept = WordPairs<A>;

    ghost stands = { λ keeper accesses pairs. StandForWords (T.tag_of keeper.tags.now) keeper.words.now accesses pairs.entries };

    fn add(&self, kept: &mut WordPairs<A>, access: &LentAccess<'_, A>) -> Result<(), Memory> {
        add_access(kept, self.tags, access)
    }

    fn close(&self, kept: &mut WordPairs<A>, group: u16) {}
}

/// Adds the races that were found of a word.
fn list_word<A: Allocator>(
    races: &mut Vec<Race, A>,
    pairs: &WordPairs<A>,
    word: Word,
) -> Result<(), Memory>
    ensures { OnOk result (races.new.items ≡ races.old.items ++ races_of (lookup (same_word word) pairs.now.entries)) }
{
    let Some(kept) = pairs.get(&word) else {
        return Ok(());
    };
    for found in &kept.found {
        races.push(found.race)?;
    }
    Ok(())
}

/// The races that were found of these words, in their order.
pub(crate) fn list_words<A: Allocator + Copy>(
    alloc: A,
    pairs: &WordPairs<A>,
    words: &[Word],
) -> Result<Vec<Race, A>, Memory>
    ensures { IfOk result (λ races. races.items ≡ races_at pairs.now.entries words.now) }
{
    let mut races = Vec::new(alloc);
    for word in words {
        list_word(&mut races, pairs, *word)?;
    }
    Ok(races)
}

/// For each of these words, which ascend, one race for each two tags that race on it, of two accesses that have these tags: the first one
/// that is found in the order in which the events are handled, but one of two groups rather than one of one.
///
/// It handles the events of the launch once, with clocks. Its time grows with the events, and with the accesses to the words times the
/// work-items that accessed them with tags that have no race yet; its memory with the work-items, tags and classes of the accesses
/// to each word, and with the events that wait for others.
///
/// # Errors
/// `Memory`: out of memory.
pub fn races_by_tags<A: Allocator + Copy, T: Tags>(
    alloc: A,
    traces: &Traces<A>,
    words: &[Word],
    tags: &T,
) -> Result<Vec<Race, A>, Memory>
    requires ascending { AllPairs WordBelow words.now }
    ensures { IfOk result (λ races. AreTagRaces traces.now (T.tag_of tags.now) words.now races.items) }
{
    if words.is_empty() {
        return Ok(Vec::new(alloc));
    }
    let mut pairs = pairs_of_words(alloc, words)?;
    follow(alloc, traces, &WordsKeeper { words, tags }, &mut pairs)?;
    let races = list_words(alloc, &pairs, words)?;
    Ok(races)
}
