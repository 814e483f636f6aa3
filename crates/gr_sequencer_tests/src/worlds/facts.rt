//! Facts that follow from the contracts alone, and that a wrong body would break. Each returns whether it was reached.

use crate::rows::{GLOBAL, WRITE, event_of};
use crate::worlds::calls::new;
use gr_model::event::ItemId;
use gr_model::memory::Memory;
use gr_world::step::Step;
use gr_world::world::World;
use std::alloc::{Allocator, Global};

const FIRST: ItemId = ItemId { group: 0, item: 0 };

/// A world is not at rest while an access is on its way.
fn at_rest_before_a_pass<A: Allocator + Copy>(world: &mut World<A>) -> bool {
    let is_at_rest = world.at_rest();
    if world.step(Step::Pass).is_err() {
        return false;
    }
    prove!(!is_at_rest);
    true
}

/// One access alone is on its way.
fn step_of_two_passes<A: Allocator + Copy>(world: &mut World<A>) -> bool {
    if world.step(Step::Pass).is_err() {
        return false;
    }
    let again = world.step(Step::Pass);
    prove!(again.is_err());
    true
}

/// A world whose only event was handled, an access that is on its way.
fn on_its_way(alloc: Global) -> Option<World> {
    let mut world = new(alloc, &[1], (1, 1, 2))?;
    for step in [
        Step::Send(0, event_of(&(0, 0, WRITE, GLOBAL, 16, &[]))),
        Step::Close(0, false),
        Step::Take(0),
        Step::Take(0),
        Step::Handle(FIRST),
    ] {
        world.step(step).ok()?;
    }
    Some(world)
}

#[test]
fn a_world_is_not_at_rest_while_an_access_is_on_its_way(rt: HostRuntime) -> Result<(), Memory> {
    let mut world = on_its_way(rt.alloc()).ok_or(Memory)?;
    assert!(rt; at_rest_before_a_pass(&mut world));
    Ok(())
}

#[test]
fn an_access_passes_once(rt: HostRuntime) -> Result<(), Memory> {
    let mut world = on_its_way(rt.alloc()).ok_or(Memory)?;
    assert!(rt; step_of_two_passes(&mut world));
    Ok(())
}
