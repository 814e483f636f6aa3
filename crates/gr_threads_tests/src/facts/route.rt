//! Queues.

ghost use Rattle.std.specs.Prelude.{◌≡◌, []};

use crate::route::three_senders::write;
use gr_model::event::Sent;
use gr_route::intake::{Intake, TakerSeat};
use std::sync::Wait;
use std::test::*;

/// Of two events of a work-group the first is popped first.
fn pop_of_two_events<R: Wait>(rt: &R, queue: &Intake, taker: &mut TakerSeat) -> Option<()>
    requires queue { taker.old.queue ≡ queue.now.queue }
    requires fresh { taker.old.popped ≡ [] }
{
    let mut seat = queue.split(taker, 5, 2)?;
    queue.push(rt, &mut seat, write(7)).ok()?;
    queue.push(rt, &mut seat, write(8)).ok()?;
    let Sent { group, event } = queue.pop(rt, taker)?;
    queue.join_back(taker, seat);
    prove!(group != 5 || event.word == 7);
    Some(())
}

#[test]
fn an_intake_queue(rt: HostRuntime) -> Result<(), Fail> {
    let (queue, mut taker) = Intake::new(rt.alloc(), 2)?;
    assert_eq!(rt; pop_of_two_events(&rt, &queue, &mut taker), Some(()));
    Ok(())
}
