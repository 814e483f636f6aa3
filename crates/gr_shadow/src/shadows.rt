//! The shadows of all words that were accessed.
//!
//! Semantics: shadows represent the list of the accesses that they were given. A word is hit in this list if a later access clashes with an
//! earlier one, and each word that is hit is answered once (docs/MODEL.md, "Hits"). What is kept of the accesses is private. It gives the
//! hits of every longer list.

ghost use Rattle.std.specs.Prelude.{◌≡◌, ◌↔◌, IfOk, OnOk, OnErr, List, [], ◌∷◌, ◌++◌, Some};
ghost use Rattle.std.specs.List.{IsDistinct, list_any};
ghost use Rattle.std.specs.Map.{keys_of};
ghost use Rattle.gr_model.specs.declared.event.Word.{Word as AnyWord};
ghost use Rattle.gr_model.specs.Prelude.{Lists, WordBelow};
ghost use Rattle.gr_clocks.specs.ClockedAccess.{ClockedAccess, clocked};
ghost use Rattle.gr_shadow.specs.Clashes.{IsHitIn};
ghost use Rattle.gr_shadow.specs.Kept.{shadow_at, same_word, is_first_hit, IsAfter, answered_words};
ghost use Rattle.gr_shadow.specs.Lent.{lent_clocked};
ghost use Rattle.gr_shadow.specs.StandsFor.{StandsFor, IsHitBy};

use crate::lent::{LentAccess, lend};
use crate::shadow::Shadow;
use gr_clocks::access::Access;
use gr_model::event::Word;
use gr_model::memory::Memory;
use gr_model::words::order_words;
use indexmap::IndexMap;
use std::alloc::{Allocator, Global};
use std::hash::{BuildHasherDefault, FoldHasher};
use std::marker::Model;

/// The race test's state. For each word accessed it has whether the word was answered. If not, it has for each item and class the epoch
/// (item, index) of the last access, since a later access that clashes with an earlier one also clashes with the last one of its item and
/// class. Contracts see by `StandsFor` the list of accesses that it represents.
#[derive(Drop)]
#[derive_where(Debug)]
pub struct Shadows<A: Allocator = Global> {
    #[derive_where(skip)]
    alloc: A,
    words: IndexMap<Word, Shadow<A>, BuildHasherDefault<FoldHasher>, A>,
}

impl<A: Allocator> Model for Shadows<A> {
    ghost use Rattle.gr_shadow.specs.Kept.{Kept};

    ghost Value = { Kept };

    ghost view = { λ s. s.words.entries };
}

impl<A: Allocator + Copy> Shadows<A> {
    /// The state before the first access. It takes no memory.
    pub fn new(alloc: A) -> Shadows<A>
        ensures { StandsFor [] result }
    {
        Shadows {
            alloc,
            words: IndexMap::new(alloc),
        }
    }

    /// Adds an access to the shadow of its word, and says whether the word becomes hit by it.
    fn note(&mut self, access: &LentAccess<'_, A>) -> Result<bool, Memory>
        ensures kept { OnOk result (IsAfter self.old (lent_clocked access.now) self.new) }
        ensures hit { IfOk result (λ hit. hit ≡ is_first_hit (shadow_at self.old access.now.word) (lent_clocked access.now)) }
        ensures err { OnErr result (self.new ≡ self.old) }
    {
        match self.words.get_mut(&access.word) {
            Some(shadow) => shadow.add(access),
            None => {
                let mut shadow = Shadow::new(self.alloc);
                let hit = shadow.add(access)?;
                self.words.insert(access.word, shadow)?;
                Ok(hit)
            }
        }
    }

    /// Adds the next access. Answers its word if the access clashes with an earlier one (docs/MODEL.md, "Hits") and the
    /// word was not answered before. The words that are answered are the racy ones if the accesses are those along a
    /// lawful order, each with a clock that counts just the access and what happens before it.
    ///
    /// # Errors
    /// `Memory` if an allocation is refused. The accesses are then those before the call.
    ///
    /// # Example
    /// ```rust
    /// // `writer` and `reader` are two items of a group. Neither clock counts an event of the other item.
    /// let word = Word::Global(16);
    /// let write = Access { word, item: writer, index: 0, class: Class::PlainWrite, clock: writer_clock };
    /// let read = Access { word, item: reader, index: 0, class: Class::PlainRead, clock: reader_clock };
    /// let mut shadows = Shadows::new(rt.alloc());
    /// assert_eq!(rt; shadows.apply(&write)?, None);
    /// assert_eq!(rt; shadows.apply(&read)?, Some(word));
    /// let words = shadows.racy()?;
    /// assert!(rt; words.as_slice() == [word].as_slice());
    /// ```
    pub fn apply(&mut self, access: &Access<A>) -> Result<Option<Word>, Memory>
        ensures stands { (accesses : List ClockedAccess) → StandsFor accesses self.old → OnOk result (StandsFor (accesses ++ clocked access.now ∷ []) self.new) }
        ensures word { (accesses : List ClockedAccess) → StandsFor accesses self.old → IfOk result (λ answer. (w : AnyWord) → answer ≡ Some w ↔ IsHitBy accesses (clocked access.now) w) }
        ensures err { OnErr result (self.new ≡ self.old) }
    {
        self.apply_lent(&lend(access))
    }

    /// Adds the next access, whose clock is lent, as `apply` does.
    ///
    /// # Errors
    /// `Memory` if an allocation is refused. The accesses are then those before the call.
    pub fn apply_lent(&mut self, access: &LentAccess<'_, A>) -> Result<Option<Word>, Memory>
        ensures stands { (accesses : List ClockedAccess) → StandsFor accesses self.old → OnOk result (StandsFor (accesses ++ lent_clocked access.now ∷ []) self.new) }
        ensures word { (accesses : List ClockedAccess) → StandsFor accesses self.old → IfOk result (λ answer. (w : AnyWord) → answer ≡ Some w ↔ IsHitBy accesses (lent_clocked access.now) w) }
        ensures err { OnErr result (self.new ≡ self.old) }
    {
        let hit = self.note(access)?;
        Ok(hit.then_some(access.word))
    }

    /// The words that were answered, in any order.
    fn answered(&self) -> Result<Vec<Word, A>, Memory>
        ensures words { IfOk result (λ words. words.items ≡ answered_words self.now) }
        ensures distinct { IsDistinct same_word (keys_of self.now) }
    {
        let words = self
            .words
            .iter()
            .filter(|entry| entry.1.is_answered())
            .map(|entry| *entry.0)
            .collect(self.alloc)?;
        Ok(words)
    }

    /// The words that are hit in the accesses so far, which are those that `apply` answered, ascending, each once.
    ///
    /// # Errors
    /// `Memory` if an allocation is refused.
    pub fn racy(&self) -> Result<Vec<Word, A>, Memory>
        ensures { (accesses : List ClockedAccess) → StandsFor accesses self.now → IfOk result (λ words. Lists WordBelow (IsHitIn accesses) words.items) }
    {
        let mut words = self.answered()?;
        order_words(&mut words);
        Ok(words)
    }

    /// Whether some word was answered.
    pub(crate) fn has_hit(&self) -> bool
        ensures { result ≡ list_any (λ e. e.1.answered) self.now }
    {
        self.words.iter().any(|entry| entry.1.is_answered())
    }
}
