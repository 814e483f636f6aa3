//! What is to come of several streams, taken by a sequencer. The groups take turns, so that few records wait for those of other
//! groups.

ghost use Rattle.std.specs.Prelude.{◌≡◌, ◌<◌, [], All, IfOk, IsFalse, IsTrue, OnOk, length, true};
ghost use Rattle.std.specs.Fn.{FnReturnsAt};
ghost use Rattle.std.specs.List.{sum_by};
ghost use Rattle.gr_order.specs.Sequences.{IsDone, IsSequence};
ghost use Rattle.gr_taking.specs.Along.{IsAlong};
ghost use Rattle.gr_taking.specs.Sources.{IsTurn, MayCome, MayTake, come_from};

use crate::handling::handle_ready;
use crate::keeper::Keeper;
use crate::source::Source;
use crate::taking::take_record;
use crate::turn::{MOST_IN_TURN, Turn};
use gr_model::memory::Memory;
use gr_sequencer::sequencer::Sequencer;
use std::alloc::Allocator;

/// Has a sequencer take some of the records that are to come of a stream. Tells whether it took one; none is to come where it
/// did not.
fn take_some<A: Allocator + Copy, K: Keeper<A>, S: Source>(
    sequencer: &mut Sequencer<A>,
    keeper: &K,
    kept: &mut K::Kept,
    source: &mut S,
) -> Result<bool, Memory>
    requires may { MayTake sequencer.old.taken (S.group_of (S.header source.old)) (S.coming source.old) }
    requires sequence { IsSequence sequencer.old }
    requires along { IsAlong (K.stands keeper.now) sequencer.old kept.old }
    ensures turn { IfOk result (λ took. IsTurn took sequencer.old.taken (S.group_of (S.header source.old)) (S.coming source.old) sequencer.new.taken (S.coming source.new)) }
    ensures header { OnOk result (S.header source.new ≡ S.header source.old) }
    ensures sequence { OnOk result (IsSequence sequencer.new) }
    ensures along { OnOk result (IsAlong (K.stands keeper.now) sequencer.new kept.new) }
{
    let group = source.group();
    let mut turn = Turn::new(source.items(), sequencer.held());
    let mut took = false;
    for _ in 0..MOST_IN_TURN {
        match source.next() {
            None => break,
            Some(event) => take_record(sequencer, keeper, kept, group, event, &mut turn)?,
        }
        took = true;
        if turn.is_over() {
            break;
        }
    }
    Ok(took)
}

/// Has a sequencer take some of what is to come of each stream, as much as its group takes in a turn, and then handle what can be.
/// Tells whether it took a record; none is to come where it did not.
///
/// # Errors
/// `Memory`: out of memory.
pub fn take_round<A: Allocator + Copy, K: Keeper<A>, S: Source>(
    sequencer: &mut Sequencer<A>,
    keeper: &K,
    kept: &mut K::Kept,
    sources: &mut [S],
) -> Result<bool, Memory>
    requires may { MayCome S.group_of sequencer.old.taken.sizes (come_from S.header S.group_of S.coming sequencer.old.taken sources.old) }
    requires sequence { IsSequence sequencer.old }
    requires along { IsAlong (K.stands keeper.now) sequencer.old kept.old }
    ensures come { OnOk result (come_from S.header S.group_of S.coming sequencer.new.taken sources.new ≡ come_from S.header S.group_of S.coming sequencer.old.taken sources.old) }
    ensures sizes { OnOk result (sequencer.new.taken.sizes ≡ sequencer.old.taken.sizes) }
    ensures some { IfOk result (λ took. IsTrue took → sum_by (λ s. length (S.coming s)) sources.new < sum_by (λ s. length (S.coming s)) sources.old) }
    ensures none { IfOk result (λ took. IsFalse took → All (λ s. S.coming s ≡ []) sources.new) }
    ensures sequence { OnOk result (IsSequence sequencer.new) }
    ensures along { OnOk result (IsAlong (K.stands keeper.now) sequencer.new kept.new) }
{
    let mut took = false;
    for place in 0..sources.len() {
        if take_some(sequencer, keeper, kept, &mut sources[place])? {
            took = true;
        }
        handle_ready(sequencer, keeper, kept)?;
    }
    Ok(took)
}

/// Has a sequencer take what is to come of streams, round by round, and handle what can be, until what is kept is enough or nothing more
/// is to come. Tells whether all was taken, and handled as it can be.
///
/// # Errors
/// `Memory`: out of memory.
pub(crate) fn take_until<A: Allocator + Copy, K: Keeper<A>, S: Source, F: Fn(&K::Kept) -> bool>(
    sequencer: &mut Sequencer<A>,
    keeper: &K,
    kept: &mut K::Kept,
    sources: &mut [S],
    is_enough: F,
) -> Result<bool, Memory>
    requires may { MayCome S.group_of sequencer.old.taken.sizes (come_from S.header S.group_of S.coming sequencer.old.taken sources.old) }
    requires sequence { IsSequence sequencer.old }
    requires along { IsAlong (K.stands keeper.now) sequencer.old kept.old }
    requires callable { F.IsAlwaysCallable is_enough }
    ensures come { OnOk result (come_from S.header S.group_of S.coming sequencer.new.taken sources.new ≡ come_from S.header S.group_of S.coming sequencer.old.taken sources.old) }
    ensures sizes { OnOk result (sequencer.new.taken.sizes ≡ sequencer.old.taken.sizes) }
    ensures none { IfOk result (λ all. IsTrue all → All (λ s. S.coming s ≡ []) sources.new) }
    ensures done { IfOk result (λ all. IsTrue all → IsDone sequencer.new) }
    ensures enough { IfOk result (λ all. IsFalse all → FnReturnsAt F.Fn is_enough kept.new true) }
    ensures sequence { OnOk result (IsSequence sequencer.new) }
    ensures along { OnOk result (IsAlong (K.stands keeper.now) sequencer.new kept.new) }
{
    while !is_enough(kept) {
        if !take_round(sequencer, keeper, kept, sources)? {
            handle_ready(sequencer, keeper, kept)?;
            return Ok(true);
        }
    }
    Ok(false)
}

/// Has a sequencer take all that is to come of streams, and handles all that can be.
///
/// # Errors
/// `Memory`: out of memory.
pub fn take_all<A: Allocator + Copy, K: Keeper<A>, S: Source>(
    sequencer: &mut Sequencer<A>,
    keeper: &K,
    kept: &mut K::Kept,
    sources: &mut [S],
) -> Result<(), Memory>
    requires may { MayCome S.group_of sequencer.old.taken.sizes (come_from S.header S.group_of S.coming sequencer.old.taken sources.old) }
    requires sequence { IsSequence sequencer.old }
    requires along { IsAlong (K.stands keeper.now) sequencer.old kept.old }
    ensures come { OnOk result (come_from S.header S.group_of S.coming sequencer.new.taken sources.new ≡ come_from S.header S.group_of S.coming sequencer.old.taken sources.old) }
    ensures sizes { OnOk result (sequencer.new.taken.sizes ≡ sequencer.old.taken.sizes) }
    ensures none { OnOk result (All (λ s. S.coming s ≡ []) sources.new) }
    ensures done { OnOk result (IsDone sequencer.new) }
    ensures sequence { OnOk result (IsSequence sequencer.new) }
    ensures along { OnOk result (IsAlong (K.stands keeper.now) sequencer.new kept.new) }
{
    take_until(sequencer, keeper, kept, sources, |_| false)?;
    Ok(())
}
