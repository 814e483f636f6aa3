//! What is kept of the accesses to one word.

ghost use Rattle.std.specs.Prelude.{◌≡◌, IfOk, OnOk, OnErr, true, ◌++◌, ◌∷◌, []};
ghost use Rattle.gr_shadow.specs.Keeps.{Keeps};
ghost use Rattle.gr_shadow.specs.Kept.{clashes_before, is_first_hit, no_shadow, IsShadowAfter};
ghost use Rattle.gr_shadow.specs.Lent.{lent_clocked};

use crate::lent::LentAccess;
use crate::touch::{PLACES, Touch, clashes_with_one, keep_among};
use crate::touches::{Touches, clashes_in_lists, put};
use arrayvec::ArrayVec;
use gr_model::memory::Memory;
use std::alloc::{Allocator, Global};
use std::marker::Model;

/// What is kept of the accesses to one word: whether the word was answered, and if not, for each item and class the touch with the greatest
/// index. The first few items and classes have theirs in the shadow itself, for good, so nothing is moved when more come; the others have
/// theirs in lists, one for each class.
#[derive(Drop)]
#[derive_where(Debug)]
pub(crate) struct Shadow<A: Allocator = Global> {
    few: ArrayVec<Touch, PLACES>,
    lists: Vec<Touches<A>, A>,
    answered: bool,
}

impl<A: Allocator> Model for Shadow<A> {
    ghost use Rattle.std.specs.Prelude.{◌++◌};
    ghost use Rattle.gr_shadow.specs.Keeps.{all_touches};
    ghost use Rattle.gr_shadow.specs.Kept.{WordShadow};

    ghost Value = { WordShadow };

    ghost view = { λ s. record { touches = s.few.items ++ all_touches s.lists.items; answered = s.answered } };
}

impl<A: Allocator + Copy> Shadow<A> {
    /// The shadow of a word without accesses.
    pub(crate) fn new(alloc: A) -> Shadow<A>
        ensures { result ≡ no_shadow }
    {
        Shadow {
            few: ArrayVec::new(),
            lists: Vec::new(alloc),
            answered: false,
        }
    }

    /// Whether the word was answered.
    pub(crate) fn is_answered(&self) -> bool
        ensures { result ≡ self.now.answered }
    {
        self.answered
    }

    /// Whether an access clashes with a touch that is kept.
    fn clashes(&self, access: &LentAccess<'_, A>) -> bool
        ensures { result ≡ clashes_before self.now (lent_clocked access.now) }
    {
        clashes_with_one(self.few.as_slice(), access) || clashes_in_lists(&self.lists, access)
    }

    /// Keeps a touch.
    fn keep(&mut self, touch: Touch) -> Result<(), Memory>
        ensures answered { OnOk result (self.new.answered ≡ self.old.answered) }
        ensures kept { OnOk result (Keeps self.new.touches (self.old.touches ++ touch ∷ [])) }
        ensures err { OnErr result (self.new ≡ self.old) }
    {
        if keep_among(&mut self.few, &touch) {
            return Ok(());
        }
        if !self.few.is_full() {
            self.few.push(touch);
            return Ok(());
        }
        put(&mut self.lists, touch)
    }

    /// Adds an access to the word, and says whether the word becomes hit by it.
    ///
    /// # Errors
    /// `Memory` if an allocation is refused. The shadow is then unchanged.
    pub(crate) fn add(&mut self, access: &LentAccess<'_, A>) -> Result<bool, Memory>
        ensures shadow { OnOk result (IsShadowAfter self.old (lent_clocked access.now) self.new) }
        ensures hit { IfOk result (λ hit. hit ≡ is_first_hit self.old (lent_clocked access.now)) }
        ensures err { OnErr result (self.new ≡ self.old) }
    {
        if self.answered {
            return Ok(false);
        }
        if self.clashes(access) {
            *self = Shadow::answered(*self.lists.allocator());
            return Ok(true);
        }
        self.keep(Touch::of(access))?;
        Ok(false)
    }

    /// The shadow of a word that was answered. Of its accesses nothing is kept.
    fn answered(alloc: A) -> Shadow<A>
        ensures { result.answered ≡ true }
    {
        Shadow {
            few: ArrayVec::new(),
            lists: Vec::new(alloc),
            answered: true,
        }
    }
}
