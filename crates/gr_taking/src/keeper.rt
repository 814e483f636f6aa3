//! What is kept of the accesses of a launch.

ghost use Rattle.std.specs.Prelude.{◌++◌, ◌∷◌, [], List, OnOk};
ghost use Rattle.gr_clocks.specs.ClockedAccess.{ClockedAccess};
ghost use Rattle.gr_shadow.specs.Launches.{StandsForLaunch};
ghost use Rattle.gr_shadow.specs.Lent.{lent_clocked};

use gr_model::memory::Memory;
use gr_shadow::launch::LaunchShadows;
use gr_shadow::lent::LentAccess;
use std::alloc::Allocator;

/// What keeps something of the accesses of a launch, which come one after another along the order in which its events are handled.
pub trait Keeper<A: Allocator + Copy> {
    /// What is kept of them.
    type Kept;

    // this is kept of these accesses
    ghost stands: { Self → List ClockedAccess → Self.Kept → Type 0 };

    /// Adds an access, which comes after all others. Its clock is lent: who keeps a clock copies it.
    fn add(&self, kept: &mut Self::Kept, access: &LentAccess<'_, A>) -> Result<(), Memory>
        ensures { OnOk result ((accesses : List ClockedAccess) → stands self.now accesses kept.old → stands self.now (accesses ++ lent_clocked access.now ∷ []) kept.new) };

    /// A group has ended: no access to its local words comes any more.
    fn close(&self, kept: &mut Self::Kept, group: u16)
        ensures { (accesses : List ClockedAccess) → stands self.now accesses kept.old → stands self.now accesses kept.new };
}

/// Keeps nothing, for who asks only what can be handled.
#[derive(Clone, Copy, Debug)]
pub struct NoKeeper;

impl<A: Allocator + Copy> Keeper<A> for NoKeeper {
    type Kept = ();

    ghost stands = { λ keeper accesses kept. Unit {0} };

    fn add(&self, kept: &mut (), access: &LentAccess<'_, A>) -> Result<(), Memory> {
        Ok(())
    }

    fn close(&self, kept: &mut (), group: u16) {}
}

/// Keeps the shadows of all words.
#[derive(Clone, Copy, Debug)]
pub struct ShadowKeeper;

impl<A: Allocator + Copy> Keeper<A> for ShadowKeeper {
    type Kept = LaunchShadows<A>;

    ghost stands = { λ keeper accesses shadows. StandsForLaunch accesses shadows };

    #[inline(always)]
    fn add(&self, kept: &mut LaunchShadows<A>, access: &LentAccess<'_, A>) -> Result<(), Memory> {
        kept.apply_lent(access)?;
        Ok(())
    }

    fn close(&self, kept: &mut LaunchShadows<A>, group: u16) {
        kept.close(group);
    }
}
