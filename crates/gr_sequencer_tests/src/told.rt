//! The summary of a sequencer at its end.

use crate::calls::twice;
use crate::rows::{Diverges, NOTHING, Told, Unmatches};
use gr_model::memory::Memory;
use gr_model::report::{Divergence, Unmatched};
use gr_sequencer::sequencer::Sequencer;
use std::alloc::Allocator;

/// The first two of a list.
pub(crate) fn two<T: Copy>(list: &[T]) -> (Option<T>, Option<T>) {
    (list.get(0).copied(), list.get(1).copied())
}

/// A divergence as the rows have it.
fn diverges(it: Divergence) -> Diverges {
    (it.group, it.instance, it.cause)
}

/// An unmatched acquire as the rows have it.
fn unmatches(it: Unmatched) -> Unmatches {
    (
        it.event.at.group,
        it.event.at.item,
        it.event.index,
        it.cause,
    )
}

/// The first two divergent instances.
pub(crate) fn two_divergent(list: &[Divergence]) -> (Option<Diverges>, Option<Diverges>) {
    let (first, second) = two(list);
    (first.map(diverges), second.map(diverges))
}

/// The first two unmatched acquires.
pub(crate) fn two_unmatched(list: &[Unmatched]) -> (Option<Unmatches>, Option<Unmatches>) {
    let (first, second) = two(list);
    (first.map(unmatches), second.map(unmatches))
}

/// The unmatched acquires; none are told before the end.
fn unmatched_once<A: Allocator + Copy>(
    sequencer: &Sequencer<A>,
) -> Result<Vec<Unmatched, A>, Memory> {
    if sequencer.at_end() {
        sequencer.unmatched()
    } else {
        Err(Memory)
    }
}

/// The summary of a sequencer, without races, each list tried twice; `None` before its end.
pub(crate) fn told<A: Allocator + Copy>(sequencer: &Sequencer<A>) -> Option<Told> {
    let unmatched = two_unmatched(&twice(|| unmatched_once(sequencer))?);
    let divergences = two_divergent(&twice(|| sequencer.divergences())?);
    let cut = two(&twice(|| sequencer.cut())?);
    Some(Told {
        divergences,
        unmatched,
        cut,
        held: sequencer.held(),
        groups: sequencer.shape().groups(),
        items: sequencer.shape().total(),
        records: u64::from(sequencer.taken(0)) + u64::from(sequencer.taken(1)),
        ..NOTHING
    })
}
