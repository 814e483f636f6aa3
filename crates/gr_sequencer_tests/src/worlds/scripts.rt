//! The answer to each step of a script, and the report at its end.

use crate::rows::{BARRIER, END, GLOBAL, LOCAL, NOTHING, READ, Told, WRITE};
use crate::worlds::calls::new;
use crate::worlds::script::{Script, Tried, steps_of, went};
use crate::worlds::told::reported;
use gr_model::event::{ItemId, Kind, Order, Scope, Word};
use gr_model::report::DivergenceCause;
use gr_world::step::StepError;
use refusing::growths::refuse_each;
use std::alloc::Global;

const OK: Result<(), StepError> = Ok(());

const BAD: Result<(), StepError> = Err(StepError::BadStep);

const NOT_OPEN: Result<(), StepError> = Err(StepError::NotOpen);

const FULL: Result<(), StepError> = Err(StepError::Full);

const EMPTY: Result<(), StepError> = Err(StepError::Empty);

const BUSY: Result<(), StepError> = Err(StepError::Busy);

const NOT_READY: Result<(), StepError> = Err(StepError::NotReady);

/// What no record may be: a load does not release.
const RELEASING_LOAD: Kind = Kind::Load(Scope::Device, Order::Release);

/// Names nothing.
const RELAXED_LOAD: Kind = Kind::Load(Scope::Device, Order::Relaxed);

/// Item 0 of group 0.
const FIRST: ItemId = ItemId { group: 0, item: 0 };

/// Item 1 of group 0.
const SECOND: ItemId = ItemId { group: 0, item: 1 };

/// Item 0 of group 1.
const OTHER: ItemId = ItemId { group: 1, item: 0 };

static SCRIPTS: [Script; 5] = [
    // One place in each queue: a write and a read of two groups.
    Script {
        name: "a race through queues with one place",
        sizes: &[1, 1],
        numbers: (1, 1, 1),
        lines: &[
            (Tried::Send((0, 0, WRITE, GLOBAL, 16, &[])), OK),
            (Tried::Send((1, 0, READ, GLOBAL, 16, &[])), FULL),
            (Tried::Take(0), OK),
            (Tried::Send((1, 0, READ, GLOBAL, 16, &[])), OK),
            (Tried::Handle(FIRST), OK),
            (Tried::Take(0), OK),
            (Tried::Handle(OTHER), BUSY),
            (Tried::Pass, OK),
            (Tried::Handle(OTHER), OK),
            (Tried::Pass, FULL),
            (Tried::WorkTake(0), OK),
            (Tried::Pass, OK),
            (Tried::WorkTake(0), OK),
            (Tried::Close(0, false), OK),
            (Tried::Close(0, false), NOT_OPEN),
            (Tried::Take(0), OK),
            (Tried::Close(1, false), OK),
            (Tried::Take(0), OK),
        ],
        told: Told {
            races: (Some(Word::Global(16)), None),
            groups: 2,
            items: 2,
            records: 4,
            ..NOTHING
        },
    },
    // Groups and items that are not there, and records that a group must not have, come before all other causes.
    Script {
        name: "a new world, and bad steps before and behind each other cause",
        sizes: &[1, 1],
        numbers: (1, 1, 1),
        lines: &[
            (Tried::Pass, EMPTY),
            (Tried::Handle(FIRST), NOT_READY),
            (Tried::Meet(0), NOT_READY),
            (Tried::Send((2, 0, WRITE, GLOBAL, 16, &[])), BAD),
            (Tried::Close(2, false), BAD),
            (Tried::Handle(ItemId { group: 2, item: 0 }), BAD),
            (Tried::Handle(SECOND), BAD),
            (Tried::Meet(2), BAD),
            (Tried::WorkTake(0), EMPTY),
            (Tried::Send((0, 1, READ, GLOBAL, 16, &[])), BAD),
            (Tried::Send((0, 0, RELEASING_LOAD, GLOBAL, 16, &[])), BAD),
            (
                Tried::Send((0, 0, RELAXED_LOAD, GLOBAL, 20, &[(0, 0, 0)])),
                BAD,
            ),
            (Tried::Send((0, 0, WRITE, GLOBAL, 16, &[])), OK),
            (Tried::Send((2, 0, WRITE, GLOBAL, 16, &[])), BAD),
            (Tried::Send((0, 1, READ, GLOBAL, 16, &[])), BAD),
            (Tried::Send((1, 0, END, GLOBAL, 0, &[])), BAD),
            (Tried::Send((1, 0, READ, GLOBAL, 16, &[])), FULL),
            (Tried::Close(1, false), FULL),
            (Tried::Close(0, false), FULL),
            (Tried::Take(0), OK),
            (Tried::Close(0, false), OK),
            (Tried::Send((0, 0, END, GLOBAL, 0, &[])), BAD),
            (Tried::Send((0, 1, READ, GLOBAL, 16, &[])), BAD),
            (Tried::Send((0, 0, READ, GLOBAL, 16, &[])), NOT_OPEN),
            (Tried::Close(0, true), NOT_OPEN),
            (Tried::Send((1, 0, READ, GLOBAL, 16, &[])), FULL),
            (Tried::Take(0), OK),
            (Tried::Take(0), EMPTY),
            (Tried::Handle(FIRST), OK),
            (Tried::Handle(SECOND), BAD),
            (Tried::Handle(FIRST), BUSY),
            (Tried::Handle(OTHER), BUSY),
            (Tried::Meet(0), NOT_READY),
            (Tried::Pass, OK),
            (Tried::Pass, EMPTY),
            (Tried::Handle(FIRST), NOT_READY),
            (Tried::Handle(OTHER), NOT_READY),
            (Tried::Close(1, true), OK),
            (Tried::Take(0), OK),
            (Tried::Handle(OTHER), NOT_READY),
            (Tried::WorkTake(0), OK),
        ],
        told: Told {
            cut: (Some(1), None),
            groups: 2,
            items: 2,
            records: 3,
            ..NOTHING
        },
    },
    // A convergent instance, which may meet while an access is on its way, and a divergent one, which has no accesses.
    Script {
        name: "an instance that meets and one that does not",
        sizes: &[2],
        numbers: (1, 1, 2),
        lines: &[
            (Tried::Send((0, 0, WRITE, GLOBAL, 16, &[])), OK),
            (Tried::Send((0, 0, BARRIER, GLOBAL, 1, &[])), OK),
            (Tried::Send((0, 1, BARRIER, GLOBAL, 1, &[])), FULL),
            (Tried::Take(0), OK),
            (Tried::Take(0), OK),
            (Tried::Meet(0), NOT_READY),
            (Tried::Send((0, 1, BARRIER, GLOBAL, 1, &[])), OK),
            (Tried::Take(0), OK),
            (Tried::Meet(0), NOT_READY),
            (Tried::Handle(SECOND), NOT_READY),
            (Tried::Handle(FIRST), OK),
            (Tried::Handle(FIRST), BUSY),
            (Tried::Meet(0), OK),
            (Tried::Meet(0), NOT_READY),
            (Tried::Send((0, 1, READ, GLOBAL, 16, &[])), OK),
            (Tried::Take(0), OK),
            (Tried::Handle(SECOND), BUSY),
            (Tried::Pass, OK),
            (Tried::Handle(SECOND), OK),
            (Tried::Pass, OK),
            (Tried::WorkTake(0), OK),
            (Tried::WorkTake(0), OK),
            (Tried::WorkTake(0), EMPTY),
            (Tried::Send((0, 0, BARRIER, GLOBAL, 2, &[])), OK),
            (Tried::Take(0), OK),
            (Tried::Handle(FIRST), NOT_READY),
            (Tried::Send((0, 1, BARRIER, GLOBAL, 3, &[])), OK),
            (Tried::Take(0), OK),
            (Tried::Meet(0), NOT_READY),
            (Tried::Handle(FIRST), OK),
            (Tried::Pass, EMPTY),
            (Tried::Handle(SECOND), OK),
            (Tried::Close(0, false), OK),
            (Tried::Take(0), OK),
        ],
        told: Told {
            divergences: (Some((0, 1, DivergenceCause::Site)), None),
            items: 2,
            records: 7,
            ..NOTHING
        },
    },
    // Group 1 sends into queue 1. Of three workers, global word 16 goes to worker 1, local word 4 of group 1 to worker 2.
    Script {
        name: "two queues and three workers",
        sizes: &[1, 1],
        numbers: (3, 2, 1),
        lines: &[
            (Tried::Send((1, 0, WRITE, LOCAL, 4, &[])), OK),
            (Tried::Take(0), EMPTY),
            (Tried::Send((0, 0, WRITE, GLOBAL, 16, &[])), OK),
            (Tried::Take(0), OK),
            (Tried::Take(1), OK),
            (Tried::Take(1), EMPTY),
            (Tried::Take(2), BAD),
            (Tried::Handle(OTHER), OK),
            (Tried::Pass, OK),
            (Tried::Handle(FIRST), OK),
            (Tried::Pass, OK),
            (Tried::WorkTake(0), EMPTY),
            (Tried::WorkTake(1), OK),
            (Tried::WorkTake(1), EMPTY),
            (Tried::WorkTake(2), OK),
            (Tried::WorkTake(3), BAD),
            (Tried::Close(0, true), OK),
            (Tried::Close(1, false), OK),
            (Tried::Take(1), OK),
            (Tried::Take(0), OK),
        ],
        told: Told {
            cut: (Some(0), None),
            groups: 2,
            items: 2,
            records: 4,
            ..NOTHING
        },
    },
    // A world is not at rest before each event is handled, and each access is passed on and received.
    Script {
        name: "an event that is left over up to the last step",
        sizes: &[1],
        numbers: (1, 1, 2),
        lines: &[
            (Tried::Send((0, 0, WRITE, GLOBAL, 16, &[])), OK),
            (Tried::Close(0, false), OK),
            (Tried::Take(0), OK),
            (Tried::Take(0), OK),
            (Tried::Handle(FIRST), OK),
            (Tried::Pass, OK),
            (Tried::WorkTake(0), OK),
        ],
        told: Told {
            records: 2,
            ..NOTHING
        },
    },
];

/// How many steps of a script `run` refuses, and what is reported at the end; `None` if out of memory.
fn ran(alloc: Global, script: &Script) -> Option<(usize, Option<Told>)> {
    let steps = steps_of(alloc, script)?;
    let mut world = new(alloc, script.sizes, script.numbers)?;
    Some((world.run(&steps) as usize, reported(&world)))
}

#[test]
fn each_step_is_answered_whatever_growth_is_refused(rt: HostRuntime) {
    for script in &SCRIPTS {
        let refused = script.lines.iter().filter(|line| line.1.is_err()).count();
        assert_eq!(rt;
            ran(rt.alloc(), script),
            Some((refused, Some(script.told))),
            "{}",
            script.name
        );
        let told = Some((None, Some(script.told)));
        let growths = refuse_each(rt.alloc(), 5, |heap| Ok(went(heap, script) == told));
        assert!(rt; growths.is_ok(), "{}", script.name);
    }
}
