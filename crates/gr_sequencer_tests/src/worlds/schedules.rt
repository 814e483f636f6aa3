//! The worked rows by schedules: whatever the workers, the queues, their places and the order in which groups send, the
//! report is the row's. A step that is refused is tried again later.

use crate::rows::{ROWS, Row, Told};
use crate::worlds::calls::{Numbers, new, step};
use crate::worlds::steps::{MOST_GROUPS, Way, sends_of};
use crate::worlds::told::reported;
use gr_model::event::ItemId;
use gr_world::step::{Step, StepError};
use gr_world::world::World;
use std::alloc::Global;
use std::collections::VecDeque;

/// How many workers and queues there are, and how many places a queue has.
const ALL_NUMBERS: [Numbers; 8] = [
    (1, 1, 1),
    (1, 1, 4),
    (3, 1, 1),
    (3, 1, 4),
    (1, 2, 1),
    (1, 2, 4),
    (3, 2, 1),
    (3, 2, 4),
];

/// Tries a step. Returns whether it was made; `None` if no later try could do better.
fn is_made(world: &mut World, tried: Step) -> Option<bool> {
    match step(world, tried)? {
        Ok(()) => Some(true),
        Err(StepError::Full | StepError::Empty | StepError::Busy | StepError::NotReady) => {
            Some(false)
        }
        Err(StepError::BadStep | StepError::NotOpen | StepError::Memory) => None,
    }
}

/// Tries the first of the steps that are left. Where it is refused, it is left.
fn send(world: &mut World, sends: &mut VecDeque<Step>) -> Option<()> {
    let Some(front) = sends.front() else {
        return Some(());
    };
    let tried = *front;
    if is_made(world, tried)? {
        let _sent = sends.pop_front();
    }
    Some(())
}

/// Tries once what the sequencer may do in a group: its items' events, and its instances.
fn try_group(world: &mut World, group: u16, items: u16) -> Option<()> {
    for item in 0..items {
        let _made = is_made(world, Step::Handle(ItemId { group, item }))?;
    }
    let _met = is_made(world, Step::Meet(group))?;
    Some(())
}

/// Tries once what the sequencer may do in each group of these sizes.
fn try_groups(world: &mut World, sizes: &[u16]) -> Option<()> {
    for group in 0..MOST_GROUPS {
        if let Some(items) = sizes.get(usize::from(group)) {
            try_group(world, group, *items)?;
        }
    }
    Some(())
}

/// Tries to take from each queue.
fn try_takes(world: &mut World, queues: u16) -> Option<()> {
    for queue in 0..queues {
        let _taken = is_made(world, Step::Take(queue))?;
    }
    Some(())
}

/// Tries what each worker may do.
fn try_works(world: &mut World, workers: u16) -> Option<()> {
    for worker in 0..workers {
        let _taken = is_made(world, Step::WorkTake(worker))?;
    }
    Some(())
}

/// Follows a schedule to its end: three sends are tried, then each step of the sequencer, and every third time each of the workers.
fn follow(
    world: &mut World,
    sends: &mut VecDeque<Step>,
    sizes: &[u16],
    numbers: Numbers,
) -> Option<()> {
    let (workers, queues, _) = numbers;
    for turn in 0..100_u32 {
        send(world, sends)?;
        send(world, sends)?;
        send(world, sends)?;
        try_groups(world, sizes)?;
        let _passed = is_made(world, Step::Pass)?;
        try_takes(world, queues)?;
        if turn % 3 == 2 {
            try_works(world, workers)?;
        }
    }
    Some(())
}

/// What a new world reports behind the schedule of a row; `None` if it doesn't come to its end.
fn told_of(alloc: Global, row: &Row, way: Way, numbers: Numbers) -> Option<Told> {
    let mut sends = sends_of(alloc, row, way).ok()?;
    let mut world = new(alloc, row.1, numbers)?;
    follow(&mut world, &mut sends, row.1, numbers).and(reported(&world))
}

#[test]
fn schedules_change_no_report(rt: HostRuntime) {
    for row in &ROWS {
        for numbers in ALL_NUMBERS {
            for way in [Way::AsListed, Way::GreatestFirst] {
                let told = told_of(rt.alloc(), row, way, numbers);
                assert_eq!(rt; told, Some(row.3), "{}: {way:?}, {numbers:?}", row.0);
            }
        }
    }
}
