//! All records of a launch, taken by a sequencer and handled as they can be.

ghost use Rattle.std.specs.Fn.{FnReturnsAt};
ghost use Rattle.std.specs.Prelude.{◌≡◌, [], IfOk, IsFalse, IsTrue, OnOk, true};
ghost use Rattle.gr_model.specs.Prelude.{AreAccepted};
ghost use Rattle.gr_order.specs.Sequences.{IsDone, IsSequence};
ghost use Rattle.gr_taking.specs.Along.{IsAlong, IsAlongSome, IsAlongWhole};
ghost use Rattle.gr_taking.specs.Sources.{AreListsOf};
ghost use Rattle.gr_taking.specs.Taken.{read_by};

use crate::keeper::Keeper;
use crate::rounds::{take_all, take_until};
use crate::source::{ListSource, Reading, Unchanged};
use gr_model::memory::Memory;
use gr_model::traces::Traces;
use gr_sequencer::sequencer::Sequencer;
use std::alloc::Allocator;

/// The lists of a launch's groups, of which all records are to come.
fn sources_of<A: Allocator + Copy, R: Reading>(
    alloc: A,
    traces: &Traces<A>,
    reading: R,
) -> Result<Vec<ListSource<'_, R>, A>, Memory>
    ensures { IfOk result (λ sources. AreListsOf (read_by (R.read_as reading) traces.now) sources.items) }
{
    let mut sources = Vec::new(alloc);
    for group in 0..traces.shape().groups() {
        let items = traces.shape().items(group);
        sources.push(ListSource::new(group, items, traces.list(group), reading))?;
    }
    Ok(sources)
}

/// Has a keeper add the accesses of a launch, along a lawful order of all events that are not held. Gives the sequencer that has taken all
/// records and handled all that can be.
///
/// # Errors
/// `Memory`: out of memory.
pub fn follow<A: Allocator + Copy, K: Keeper<A>>(
    alloc: A,
    traces: &Traces<A>,
    keeper: &K,
    kept: &mut K::Kept,
) -> Result<Sequencer<A>, Memory>
    requires { K.stands keeper.now [] kept.old }
    ensures accepted { OnOk result (AreAccepted traces.now) }
    ensures taken { IfOk result (λ q. q.taken ≡ traces.now) }
    ensures done { IfOk result (λ q. IsDone q) }
    ensures sequence { IfOk result (λ q. IsSequence q) }
    ensures along { IfOk result (λ q. IsAlong (K.stands keeper.now) q kept.new) }
    ensures whole { OnOk result (IsAlongWhole (K.stands keeper.now) traces.now kept.new) }
{
    let mut sequencer = Sequencer::new(alloc, traces.shape().copy()?)?;
    let mut sources = sources_of(alloc, traces, Unchanged)?;
    take_all(&mut sequencer, keeper, kept, sources.as_mut_slice())?;
    Ok(sequencer)
}

/// Has a keeper add accesses of a launch whose records are read so, along a lawful order, until what is kept is enough or it has those of
/// all events that are not held. Tells whether it has all.
///
/// # Errors
/// `Memory`: out of memory.
pub fn follow_until<A: Allocator + Copy, R: Reading, K: Keeper<A>, F: Fn(&K::Kept) -> bool>(
    alloc: A,
    traces: &Traces<A>,
    reading: R,
    keeper: &K,
    kept: &mut K::Kept,
    is_enough: F,
) -> Result<bool, Memory>
    requires accepted { AreAccepted traces.now → AreAccepted (read_by (R.read_as reading) traces.now) }
    requires stands { K.stands keeper.now [] kept.old }
    requires callable { F.IsAlwaysCallable is_enough }
    ensures some { OnOk result (IsAlongSome (K.stands keeper.now) (read_by (R.read_as reading) traces.now) kept.new) }
    ensures whole { IfOk result (λ all. IsTrue all → IsAlongWhole (K.stands keeper.now) (read_by (R.read_as reading) traces.now) kept.new) }
    ensures enough { IfOk result (λ all. IsFalse all → FnReturnsAt F.Fn is_enough kept.new true) }
{
    let mut sequencer = Sequencer::new(alloc, traces.shape().copy()?)?;
    let mut sources = sources_of(alloc, traces, reading)?;
    let all = take_until(
        &mut sequencer,
        keeper,
        kept,
        sources.as_mut_slice(),
        is_enough,
    )?;
    Ok(all)
}
