//! Facts of barrier instances.

use crate::launch::new_instances;
use gr_barriers::instances::{BarrierError, State};
use gr_model::event::ItemId;

/// The first item of the group.
const FIRST: ItemId = ItemId { group: 0, item: 0 };

/// No barrier comes after the end of its group.
#[test]
fn arrive_behind_the_end(rt: HostRuntime) -> Result<(), BarrierError> {
    let mut instances = new_instances(rt.alloc())?;
    instances.end_group(0)?;
    let answer = instances.arrive(FIRST, 7, true, false);
    prove!(answer == Err(BarrierError::Ended(0)));
    Ok(())
}

/// While its group goes on no instance lacks an item for good.
#[test]
#[tactic(auto, using(crate::proofs::States::waits))]
fn state_of_an_instance_that_waits(rt: HostRuntime) -> Result<(), BarrierError> {
    let mut instances = new_instances(rt.alloc())?;
    instances.arrive(FIRST, 7, true, false)?;
    let state = instances.state(0, 0);
    prove!(state != Some(State::Divergent));
    Ok(())
}
