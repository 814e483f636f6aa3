//! All events that can be handled, and their accesses.

ghost use Rattle.std.specs.Prelude.{◌≡◌, ◌++◌, List, OnOk};
ghost use Rattle.gr_order.specs.Sequences.{IsDone, IsSequence};
ghost use Rattle.gr_clocks.specs.ClockedAccess.{ClockedAccess};
ghost use Rattle.gr_taking.specs.Along.{accesses_of, IsAlong};

use crate::keeper::Keeper;
use gr_model::memory::Memory;
use gr_sequencer::handled::Handled;
use gr_sequencer::sequencer::Sequencer;
use gr_shadow::lent::lend;
use std::alloc::Allocator;

/// Has a keeper add the access of a step, if it has one.
#[inline(always)]
fn give<A: Allocator + Copy, K: Keeper<A>>(
    keeper: &K,
    kept: &mut K::Kept,
    step: Handled<A>,
) -> Result<(), Memory>
    ensures { OnOk result ((accesses : List ClockedAccess) → K.stands keeper.now accesses kept.old → K.stands keeper.now (accesses ++ accesses_of step) kept.new) }
{
    match step {
        Handled::One {
            event: _,
            access: Some(access),
        } => keeper.add(kept, &lend(&access)),
        Handled::One {
            event: _,
            access: None,
        }
        | Handled::Meet {
            group: _,
            instance: _,
        } => Ok(()),
    }
}

/// Has a keeper know that a group has ended, once all of it was handled.
#[inline(always)]
pub(crate) fn close<A: Allocator + Copy, K: Keeper<A>>(
    sequencer: &mut Sequencer<A>,
    keeper: &K,
    kept: &mut K::Kept,
    group: u16,
)
    requires { IsAlong (K.stands keeper.now) sequencer.old kept.old }
    ensures unchanged { sequencer.new ≡ sequencer.old }
    ensures along { IsAlong (K.stands keeper.now) sequencer.new kept.new }
{
    if sequencer.close(group) {
        keeper.close(kept, group);
    }
}

/// Handles all events that can be handled, and has a keeper add their accesses and know of groups that end so.
///
/// # Errors
/// `Memory`: out of memory.
pub fn handle_ready<A: Allocator + Copy, K: Keeper<A>>(
    sequencer: &mut Sequencer<A>,
    keeper: &K,
    kept: &mut K::Kept,
) -> Result<(), Memory>
    requires { IsAlong (K.stands keeper.now) sequencer.old kept.old }
    ensures taken { OnOk result (sequencer.new.taken ≡ sequencer.old.taken) }
    ensures done { OnOk result (IsDone sequencer.new) }
    ensures sequence { OnOk result (IsSequence sequencer.new) }
    ensures along { OnOk result (IsAlong (K.stands keeper.now) sequencer.new kept.new) }
{
    while let Some(step) = sequencer.step()? {
        let group = step.group();
        give(keeper, kept, step)?;
        close(sequencer, keeper, kept, group);
    }
    Ok(())
}
