//! The calls of a world, each tried twice: a try without memory must change nothing, and then the second try
//! counts. `None`: the first try changed something, or both had no memory.

use crate::calls::{shape_of, twice};
use gr_model::config::Config;
use gr_model::memory::Memory;
use gr_world::step::{Step, StepError};
use gr_world::world::World;
use refusing::growths::tried;
use std::alloc::Allocator;

/// The numbers of workers, of intake queues, and of places in each queue.
pub(crate) type Numbers = (u16, u16, u32);

fn new_once<A: Allocator + Copy>(
    alloc: A,
    sizes: &[u16],
    config: Config,
) -> Result<World<A>, Memory> {
    let shape = shape_of(alloc, sizes)?;
    World::new(alloc, shape, config)
}

/// The world of a launch of these sizes.
pub(crate) fn new<A: Allocator + Copy>(
    alloc: A,
    sizes: &[u16],
    numbers: Numbers,
) -> Option<World<A>> {
    let (workers, queues, capacity) = numbers;
    let config = Config::new(workers, queues, capacity).ok()?;
    twice(|| new_once(alloc, sizes, config))
}

/// The answer to a step.
pub(crate) fn step<A: Allocator + Copy>(
    world: &mut World<A>,
    step: Step,
) -> Option<Result<(), StepError>> {
    tried(
        world,
        |world| world.at_rest(),
        |world| match world.step(step) {
            Err(StepError::Memory) => Err(Memory),
            answer => Ok(answer),
        },
    )
}
