//! Scripts: steps, each with the answer to it.

use crate::rows::{Record, Told, event_of};
use crate::worlds::calls::{Numbers, new, step};
use crate::worlds::told::reported;
use gr_model::event::ItemId;
use gr_world::step::{Step, StepError};
use gr_world::world::World;
use std::alloc::Allocator;

/// A step as the scripts have it: what is sent is a record of the tables.
#[derive(Clone, Copy)]
pub(crate) enum Tried {
    Send(Record),
    Close(u16, bool),
    Take(u16),
    Handle(ItemId),
    Meet(u16),
    Pass,
    WorkTake(u16),
}

impl Tried {
    /// The step.
    fn step(self) -> Step {
        match self {
            Tried::Send(record) => Step::Send(record.0, event_of(&record)),
            Tried::Close(group, cut) => Step::Close(group, cut),
            Tried::Take(queue) => Step::Take(queue),
            Tried::Handle(item) => Step::Handle(item),
            Tried::Meet(group) => Step::Meet(group),
            Tried::Pass => Step::Pass,
            Tried::WorkTake(worker) => Step::WorkTake(worker),
        }
    }
}

/// A step, and the answer to it.
pub(crate) type Line = (Tried, Result<(), StepError>);

/// A script of steps, which begins with a new world.
#[derive(Clone, Copy)]
pub(crate) struct Script {
    pub(crate) name: &'static str,
    /// The sizes of the groups.
    pub(crate) sizes: &'static [u16],
    pub(crate) numbers: Numbers,
    pub(crate) lines: &'static [Line],
    /// What is reported at the end.
    pub(crate) told: Told,
}

/// The steps of a script, or `None` if out of memory.
pub(crate) fn steps_of<A: Allocator>(alloc: A, script: &Script) -> Option<Vec<Step, A>> {
    let mut steps = Vec::new(alloc);
    for (tried, _) in script.lines {
        steps.push(tried.step()).ok()?;
    }
    Some(steps)
}

/// The place of the first line with a wrong answer, or after which the world is at rest too early or not at the end.
fn first_wrong_line<A: Allocator + Copy>(world: &mut World<A>, script: &Script) -> Option<usize> {
    let last = script.lines.len().saturating_sub(1);
    for (place, (tried, answer)) in script.lines.iter().enumerate() {
        let is_answered = step(world, tried.step()) == Some(*answer);
        if !is_answered || world.at_rest() != (place == last) {
            return Some(place);
        }
    }
    None
}

/// How a script went: the place of the first line with another answer, if there is one, and what was reported at the
/// end, if the world was at rest.
pub(crate) type Outcome = (Option<usize>, Option<Told>);

/// How a script went, or `None` where there is no world.
pub(crate) fn went<A: Allocator + Copy>(alloc: A, script: &Script) -> Option<Outcome> {
    let mut world = new(alloc, script.sizes, script.numbers)?;
    let wrong = first_wrong_line(&mut world, script);
    Some((wrong, reported(&world)))
}
