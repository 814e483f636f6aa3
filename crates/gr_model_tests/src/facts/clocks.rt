//! Facts of vector clocks.

ghost use Rattle.std.specs.Prelude.{◌∷◌, [], IfOk};
ghost use Rattle.gr_clocks.specs.ItemClocks.{AreNew};

use crate::launch::shape_of;
use gr_clocks::clock::{Clock, ClockError};
use gr_clocks::clocks::Clocks;
use gr_model::event::{ItemId, Scope, Space, Word};
use std::alloc::Allocator;

/// The first item of group 1.
const FIRST: ItemId = ItemId { group: 1, item: 0 };

/// The other item of group 1.
const OTHER: ItemId = ItemId { group: 1, item: 1 };

/// Clocks of a group of one item and a group of two, which have counted nothing.
fn new_clocks<A: Allocator + Copy>(alloc: A) -> Result<Clocks<A>, ClockError>
    ensures { IfOk result (AreNew (1 ∷ 2 ∷ [])) }
{
    let shape = shape_of(alloc, &[1, 2])?;
    Clocks::new(alloc, &shape)
}

/// A clock that counts an event of this item, and one of an item of another group.
fn ticked<A: Allocator + Copy>(alloc: A, item: ItemId) -> Result<Clock<A>, ClockError> {
    let shape = shape_of(alloc, &[1, 2])?;
    let mut clock = Clock::new(alloc, &shape)?;
    clock.tick(item)?;
    clock.tick(ItemId { group: 0, item: 0 })?;
    Ok(clock)
}

/// The clock of a release counts it, and an acquire of a global word learns nothing of local memory.
#[test]
fn acquire_of_a_global_word(rt: HostRuntime) -> Result<(), ClockError> {
    let mut clocks = new_clocks(rt.alloc())?;
    let snapshot = clocks.release(FIRST, Word::Global(4), Scope::Device)?;
    prove!(snapshot.clock().get(FIRST) == 1);
    clocks.acquire(OTHER, &[&snapshot])?;
    prove!(clocks.clock_of(OTHER, Space::Local).get(FIRST) == 0);
    Ok(())
}

/// An acquire of two releases counts the second.
#[test]
fn acquire_of_two_releases(rt: HostRuntime) -> Result<(), ClockError> {
    let acquirer = ItemId { group: 0, item: 0 };
    let mut clocks = new_clocks(rt.alloc())?;
    let first = clocks.release(FIRST, Word::Global(4), Scope::Device)?;
    let second = clocks.release(OTHER, Word::Global(4), Scope::Device)?;
    clocks.acquire(acquirer, &[&first, &second])?;
    prove!(clocks.clock_of(acquirer, Space::Global).get(OTHER) > 0);
    Ok(())
}

/// A join counts no less than the other, of an item that it did not count.
#[test]
fn join_counts_no_less(rt: HostRuntime) -> Result<(), ClockError> {
    let mut clock = ticked(rt.alloc(), FIRST)?;
    let other = ticked(rt.alloc(), OTHER)?;
    clock.join(&other)?;
    prove!(clock.get(OTHER) >= other.get(OTHER));
    Ok(())
}

/// The clock of an access counts it, and does not lack a group of which it counts an event.
#[test]
fn access_in_counts_the_access(rt: HostRuntime) -> Result<(), ClockError> {
    let mut clocks = new_clocks(rt.alloc())?;
    let clock = clocks.access_in(FIRST, Space::Global)?;
    prove!(clock.get(FIRST) == 1);
    prove!(!clock.lacks(1, OTHER));
    prove!(!clock.lacks_all(OTHER));
    Ok(())
}

/// A barrier that flags global memory orders no local memory.
#[test]
fn meet_of_global_memory(rt: HostRuntime) -> Result<(), ClockError> {
    let mut clocks = new_clocks(rt.alloc())?;
    clocks.meet(1, true, false)?;
    prove!(clocks.clock_of(FIRST, Space::Local).get(OTHER) == 0);
    Ok(())
}
