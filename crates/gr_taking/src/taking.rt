//! A record of a group, taken by a sequencer and handled as soon as it can be.
//!
//! A record whose event can be handled at once is taken and handled in one call. The others wait, and what waits is looked at
//! now and then (`turn`), so that no more records are kept than wait.

ghost use Rattle.std.specs.Prelude.{◌≡◌, ◌<◌, OnOk, Some, length};
ghost use Rattle.gr_model.specs.declared.limits.TheConstants.{MOST_RECORDS};
ghost use Rattle.gr_model.specs.Prelude.{IsLawful, event_at, list_of};
ghost use Rattle.gr_clocks.specs.ClockedAccess.{bare};
ghost use Rattle.gr_closure.specs.Accesses.{IsAccess};
ghost use Rattle.gr_lanes.specs.Takes.{CanTake, IsEventButItem, IsMereAccess, with_record};
ghost use Rattle.gr_order.specs.Sequences.{HandlesEvent, IsSequence, Sequence};
ghost use Rattle.gr_shadow.specs.Lent.{lent_clocked};
ghost use Rattle.gr_taking.specs.Along.{IsAlong};

use crate::handling::{close, handle_ready};
use crate::keeper::Keeper;
use crate::turn::Turn;
use gr_clocks::clocks::memory_of;
use gr_lanes::seq_error::SeqError;
use gr_model::class::class_of;
use gr_model::event::{Event, EventId, word_of};
use gr_model::memory::Memory;
use gr_sequencer::sequencer::Sequencer;
use gr_shadow::lent::LentAccess;
use std::alloc::Allocator;

/// The access of an event that was handled last: its clock is that of its item, lent.
#[inline(always)]
fn access_of<'s, A: Allocator>(
    sequencer: &'s Sequencer<A>,
    event: EventId,
    taken: &Event,
) -> LentAccess<'s, A>
    requires there { event_at sequencer.now.taken event ≡ Some taken.now }
    requires access { IsMereAccess taken.now }
    requires sequence { IsSequence sequencer.now }
    requires last { (old : Sequence) × IsLawful old.taken old.handled × HandlesEvent old event sequencer.now }
    ensures { IsAccess sequencer.now.taken event (bare (lent_clocked result)) }
{
    let (Some(word), Some(class)) = (word_of(event.at.group, taken), class_of(&taken.kind)) else {
        unreachable!()
    };
    LentAccess {
        clock: sequencer.clock_of(event.at, memory_of(word)),
        word,
        item: event.at,
        class,
        index: event.index,
    }
}

/// Has a sequencer take a record of a group, and handle its event where that can be done at once. Tells whether the event
/// waits.
#[inline(always)]
fn take_one<A: Allocator + Copy, K: Keeper<A>>(
    sequencer: &mut Sequencer<A>,
    keeper: &K,
    kept: &mut K::Kept,
    group: u16,
    event: Event,
) -> Result<bool, Memory>
    requires can { CanTake sequencer.old.taken group event }
    requires good { IsEventButItem event }
    requires room { length (list_of sequencer.old.taken group) < MOST_RECORDS }
    requires sequence { IsSequence sequencer.old }
    requires along { IsAlong (K.stands keeper.now) sequencer.old kept.old }
    ensures taken { OnOk result (sequencer.new.taken ≡ with_record sequencer.old.taken group event) }
    ensures sequence { IsSequence sequencer.new }
    ensures along { OnOk result (IsAlong (K.stands keeper.now) sequencer.new kept.new) }
{
    match sequencer.take_and_handle(group, event) {
        Ok(None) => Ok(true),
        Ok(Some(handled)) => {
            keeper.add(kept, &access_of(sequencer, handled, &event))?;
            Ok(false)
        }
        Err(error) => match error {
            SeqError::Memory => Err(Memory),
            _ => unreachable!(),
        },
    }
}

/// Has a sequencer take a record of a group in its turn, and handle what can be where it is time to.
///
/// # Errors
/// `Memory`: out of memory.
#[inline(always)]
pub fn take_record<A: Allocator + Copy, K: Keeper<A>>(
    sequencer: &mut Sequencer<A>,
    keeper: &K,
    kept: &mut K::Kept,
    group: u16,
    event: Event,
    turn: &mut Turn,
) -> Result<(), Memory>
    requires can { CanTake sequencer.old.taken group event }
    requires good { IsEventButItem event }
    requires room { length (list_of sequencer.old.taken group) < MOST_RECORDS }
    requires sequence { IsSequence sequencer.old }
    requires along { IsAlong (K.stands keeper.now) sequencer.old kept.old }
    ensures taken { OnOk result (sequencer.new.taken ≡ with_record sequencer.old.taken group event) }
    ensures sequence { OnOk result (IsSequence sequencer.new) }
    ensures along { OnOk result (IsAlong (K.stands keeper.now) sequencer.new kept.new) }
{
    if take_one(sequencer, keeper, kept, group, event)? && turn.is_to_look(&event) {
        handle_ready(sequencer, keeper, kept)?;
        turn.note_look(sequencer.held());
    }
    if event.kind.is_end() {
        close(sequencer, keeper, kept, group);
    }
    Ok(())
}
