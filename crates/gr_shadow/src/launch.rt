//! The shadows of a launch's words, apart by memory: those of global words, and for each group those of its local words.
//!
//! Semantics: as `Shadows` (docs/MODEL.md, "Hits"). A word's hits are those of the accesses to its memory alone, so each
//! memory has shadows of its own, and those of a group that has ended can be given up where none of its words is hit.

ghost use Rattle.std.specs.Prelude.{◌≡◌, ◌<◌, ◌++◌, ◌∷◌, [], ℕ, ◌↔◌, ◌⊎◌, true, Contains, IfOk, IsFalse, List, OnErr, OnOk, Some, length};
ghost use Rattle.gr_model.specs.declared.event.Word.{Word as AnyWord};
ghost use Rattle.gr_model.specs.Prelude.{Lists, WordBelow};
ghost use Rattle.gr_clocks.specs.ClockedAccess.{ClockedAccess, clocked};
ghost use Rattle.gr_shadow.specs.Clashes.{IsHitIn};
ghost use Rattle.gr_shadow.specs.Launches.{StandsForLaunch, StandsForLocal, is_local_of};
ghost use Rattle.gr_shadow.specs.Lent.{lent_clocked};
ghost use Rattle.gr_shadow.specs.StandsFor.{IsHitBy};

use crate::lent::{LentAccess, lend};
use crate::shadows::Shadows;
use gr_clocks::access::Access;
use gr_model::event::Word;
use gr_model::memory::Memory;
use gr_model::words::order_words;
use std::alloc::{Allocator, Global};
use std::marker::Model;

/// The race test's state of a launch. Contracts see by `StandsForLaunch` the list of accesses that it represents.
#[derive(Drop)]
#[derive_where(Debug)]
pub struct LaunchShadows<A: Allocator = Global> {
    #[derive_where(skip)]
    alloc: A,
    global: Shadows<A>,
    /// For each group the shadows of its local words; `None` where they were given up.
    local: Vec<Option<Shadows<A>>, A>,
}

impl<A: Allocator> Model for LaunchShadows<A> {
    ghost use Rattle.gr_shadow.specs.Launches.{LaunchKept};

    ghost Value = { LaunchKept };

    ghost view = { λ s. record { global = s.global; local = s.local.items } };
}

/// Whether some local word of a group is hit.
fn has_hit<A: Allocator + Copy>(local: &Option<Shadows<A>>) -> bool
    ensures { (accesses : List ClockedAccess) → StandsForLocal accesses (Some local.now) → IsFalse result → (w : AnyWord) → ¬ IsHitIn accesses w }
{
    match local {
        None => false,
        Some(shadows) => shadows.has_hit(),
    }
}

/// Gives up the shadows of a group's local words, where none of them is hit.
fn give_up<A: Allocator + Copy>(local: &mut Option<Shadows<A>>)
    ensures { (accesses : List ClockedAccess) → StandsForLocal accesses (Some local.old) → StandsForLocal accesses (Some local.new) }
{
    if !has_hit(local) {
        *local = None;
    }
}

/// Adds the next access to a group's local words.
///
/// # Errors
/// `Memory` if an allocation is refused, or the shadows were given up. The accesses are then those before the call.
fn apply_to<A: Allocator + Copy>(
    local: &mut Option<Shadows<A>>,
    access: &LentAccess<'_, A>,
) -> Result<Option<Word>, Memory>
    ensures stands { (accesses : List ClockedAccess) → StandsForLocal accesses (Some local.old) → OnOk result (StandsForLocal (accesses ++ lent_clocked access.now ∷ []) (Some local.new)) }
    ensures word { (accesses : List ClockedAccess) → StandsForLocal accesses (Some local.old) → IfOk result (λ answer. (w : AnyWord) → answer ≡ Some w ↔ IsHitBy accesses (lent_clocked access.now) w) }
    ensures err { OnErr result (local.new ≡ local.old) }
{
    match local {
        None => Err(Memory),
        Some(shadows) => shadows.apply_lent(access),
    }
}

/// Adds the local words of a group that are hit to others.
///
/// # Errors
/// `Memory` if an allocation is refused.
fn add_racy<A: Allocator + Copy>(
    words: &mut Vec<Word, A>,
    local: &Option<Shadows<A>>,
) -> Result<(), Memory>
    ensures { (accesses : List ClockedAccess) → StandsForLocal accesses (Some local.now) → OnOk result ((w : AnyWord) → Contains words.new.items w ↔ (Contains words.old.items w ⊎ IsHitIn accesses w)) }
{
    match local {
        None => Ok(()),
        Some(shadows) => {
            let racy = shadows.racy()?;
            words.extend_from_slice(racy.as_slice())?;
            Ok(())
        }
    }
}

impl<A: Allocator + Copy> LaunchShadows<A> {
    /// The state before the first access. It takes no memory.
    pub fn new(alloc: A) -> LaunchShadows<A>
        ensures { StandsForLaunch [] result }
    {
        LaunchShadows {
            alloc,
            global: Shadows::new(alloc),
            local: Vec::new(alloc),
        }
    }

    /// Makes shadows for the groups up to this one that have none.
    fn make_room(&mut self, group: u16) -> Result<(), Memory>
        ensures stands { (accesses : List ClockedAccess) → StandsForLaunch accesses self.old → StandsForLaunch accesses self.new }
        ensures room { OnOk result (group < length self.new.local) }
    {
        while self.local.len() <= usize::from(group) {
            self.local.push(Some(Shadows::new(self.alloc)))?;
        }
        Ok(())
    }

    /// Adds the next access to a group's local words.
    fn apply_local(
        &mut self,
        group: u16,
        access: &LentAccess<'_, A>,
    ) -> Result<Option<Word>, Memory>
        requires { is_local_of group access.now.word ≡ true }
        ensures stands { (accesses : List ClockedAccess) → StandsForLaunch accesses self.old → OnOk result (StandsForLaunch (accesses ++ lent_clocked access.now ∷ []) self.new) }
        ensures word { (accesses : List ClockedAccess) → StandsForLaunch accesses self.old → IfOk result (λ answer. (w : AnyWord) → answer ≡ Some w ↔ IsHitBy accesses (lent_clocked access.now) w) }
        ensures err { (accesses : List ClockedAccess) → StandsForLaunch accesses self.old → OnErr result (StandsForLaunch accesses self.new) }
    {
        self.make_room(group)?;
        apply_to(&mut self.local[usize::from(group)], access)
    }

    /// Adds the next access. Answers its word if that becomes hit by it, as `Shadows` does.
    ///
    /// # Errors
    /// `Memory` if an allocation is refused, or the shadows of the word were given up. The accesses are then those before the call.
    pub fn apply(&mut self, access: &Access<A>) -> Result<Option<Word>, Memory>
        ensures stands { (accesses : List ClockedAccess) → StandsForLaunch accesses self.old → OnOk result (StandsForLaunch (accesses ++ clocked access.now ∷ []) self.new) }
        ensures word { (accesses : List ClockedAccess) → StandsForLaunch accesses self.old → IfOk result (λ answer. (w : AnyWord) → answer ≡ Some w ↔ IsHitBy accesses (clocked access.now) w) }
        ensures err { (accesses : List ClockedAccess) → StandsForLaunch accesses self.old → OnErr result (StandsForLaunch accesses self.new) }
    {
        self.apply_lent(&lend(access))
    }

    /// Adds the next access, whose clock is lent, as `apply` does.
    ///
    /// # Errors
    /// Those of `apply`.
    pub fn apply_lent(&mut self, access: &LentAccess<'_, A>) -> Result<Option<Word>, Memory>
        ensures stands { (accesses : List ClockedAccess) → StandsForLaunch accesses self.old → OnOk result (StandsForLaunch (accesses ++ lent_clocked access.now ∷ []) self.new) }
        ensures word { (accesses : List ClockedAccess) → StandsForLaunch accesses self.old → IfOk result (λ answer. (w : AnyWord) → answer ≡ Some w ↔ IsHitBy accesses (lent_clocked access.now) w) }
        ensures err { (accesses : List ClockedAccess) → StandsForLaunch accesses self.old → OnErr result (StandsForLaunch accesses self.new) }
    {
        match access.word {
            Word::Local(group, _) => self.apply_local(group, access),
            Word::Global(_) => {
                let hit = self.global.apply_lent(access)?;
                Ok(hit)
            }
        }
    }

    /// Gives up the shadows of a group's local words, where none of them is hit: the group has ended, and accesses them no more.
    pub fn close(&mut self, group: u16)
        ensures { (accesses : List ClockedAccess) → StandsForLaunch accesses self.old → StandsForLaunch accesses self.new }
    {
        let place = usize::from(group);
        if place < self.local.len() {
            give_up(&mut self.local[place]);
        }
    }

    /// The words that are hit in the accesses so far, ascending, each once.
    ///
    /// # Errors
    /// `Memory` if an allocation is refused.
    pub fn racy(&self) -> Result<Vec<Word, A>, Memory>
        ensures { (accesses : List ClockedAccess) → StandsForLaunch accesses self.now → IfOk result (λ words. Lists WordBelow (IsHitIn accesses) words.items) }
    {
        let mut words = self.global.racy()?;
        for local in &self.local {
            add_racy(&mut words, local)?;
        }
        order_words(&mut words);
        Ok(words)
    }
}
