//! An access whose clock is lent.

ghost use Rattle.std.specs.Prelude.{◌≡◌, IfOk};
ghost use Rattle.gr_clocks.specs.ClockedAccess.{clocked};
ghost use Rattle.gr_shadow.specs.Lent.{lent_clocked};

use gr_clocks::access::Access;
use gr_clocks::clock::Clock;
use gr_model::class::Class;
use gr_model::event::{ItemId, Word};
use gr_model::memory::Memory;
use std::alloc::{Allocator, Global};

/// An access as a race test looks at it: its clock is another's. No count of those who share the clock changes.
#[derive(Clone, Copy)]
pub struct LentAccess<'a, A: Allocator = Global> {
    pub clock: &'a Clock<A>,
    pub word: Word,
    pub item: ItemId,
    pub class: Class,
    pub index: u32,
}

/// The access, with its own clock lent.
pub fn lend<A: Allocator>(access: &Access<A>) -> LentAccess<'_, A>
    ensures { lent_clocked result ≡ clocked access.now }
{
    LentAccess {
        clock: &access.clock,
        word: access.word,
        item: access.item,
        class: access.class,
        index: access.index,
    }
}

impl<A: Allocator + Clone> LentAccess<'_, A> {
    /// The access with a clock of its own.
    ///
    /// # Errors
    /// `Memory`: out of memory.
    pub fn owned(&self) -> Result<Access<A>, Memory>
        ensures { IfOk result (λ access. clocked access ≡ lent_clocked self.now) }
    {
        let Ok(clock) = self.clock.copy() else {
            return Err(Memory);
        };
        Ok(Access {
            clock,
            word: self.word,
            item: self.item,
            class: self.class,
            index: self.index,
        })
    }
}
