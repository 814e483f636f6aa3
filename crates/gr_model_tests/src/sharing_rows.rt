//! The worked row of clocks that share their counts: what one of them counts from then on, its copy does not.

use crate::launch::shape_of;
use gr_clocks::clock::Clock;
use gr_model::event::ItemId;
use gr_model::memory::Memory;
use refusing::growths::{refuse_each, tried};
use std::alloc::Allocator;

/// The counts of three groups of two items.
type Counts = [[u32; 2]; 3];

fn at(group: u16, item: u16) -> ItemId {
    ItemId { group, item }
}

fn counts<A: Allocator>(clock: &Clock<A>) -> Counts {
    [
        [clock.get(at(0, 0)), clock.get(at(0, 1))],
        [clock.get(at(1, 0)), clock.get(at(1, 1))],
        [clock.get(at(2, 0)), clock.get(at(2, 1))],
    ]
}

/// Ticks an item, tried twice.
fn tick<A: Allocator + Copy>(clock: &mut Clock<A>, item: ItemId) -> Option<()> {
    tried(clock, counts, |clock| clock.tick(item).map_err(|_| Memory))
}

/// A tick of a clock and of its copy, and a join of the clock into the copy: what both count then.
fn tick_and_join<A: Allocator + Copy>(
    first: &mut Clock<A>,
    copied: &mut Clock<A>,
) -> Option<(Counts, Counts)> {
    tick(copied, at(1, 1))?;
    tick(first, at(0, 0))?;
    tried(
        copied,
        counts,
        |clock| clock.join(first).map_err(|_| Memory),
    )?;
    Some((counts(first), counts(copied)))
}

/// Three ticks of a clock, a copy, a tick of each, and a join of the clock into the copy.
fn tick_and_copy<A: Allocator + Copy>(first: &mut Clock<A>) -> Option<(Counts, Counts)> {
    for _time in 0..3 {
        tick(first, at(1, 1))?;
    }
    let mut copied = first.copy().ok()?;
    tick_and_join(first, &mut copied)
}

/// Whether the counts of a new clock are those of the row, or memory ran out.
fn are_counted<A: Allocator + Copy>(alloc: A) -> Result<bool, Memory> {
    let shape = shape_of(alloc, &[2, 2, 2])?;
    let mut first = Clock::new(alloc, &shape).map_err(|_| Memory)?;
    let counts = tick_and_copy(&mut first).ok_or(Memory)?;
    Ok(counts == ([[1, 0], [0, 3], [0, 0]], [[1, 0], [0, 4], [0, 0]]))
}

#[test]
fn a_copy_does_not_count_what_the_other_does(rt: HostRuntime) {
    let growths = refuse_each(rt.alloc(), 1, |heap| are_counted(heap));
    assert!(rt; growths.is_ok(), "{growths:?}");
}
