//! What a sender answers when its queue is full, and a run of three senders.

ghost use Rattle.std.specs.Prelude.{◌≡◌, [], IfOk};

use crate::route::three_senders::{sender_of, shared_queue, three_senders, write};
use gr_model::event::Event;
use gr_threads::sender::{SendError, Sender};
use std::alloc::Global;
use std::test::*;

/// A sender of group 0, of one item, over a queue of its own, which has one place.
pub(crate) fn lone_sender(alloc: Global) -> Result<Sender, Fail>
    ensures { IfOk result (λ sender. sender.sent ≡ []) }
{
    let (queue, mut taker) = shared_queue(alloc, 1)?;
    Ok(sender_of(&queue, &mut taker, 0)?)
}

/// A sender's group, how many records it has sent, and whether it has sent the end.
fn state_of(sender: &Sender) -> (u16, u32, bool) {
    (sender.group(), sender.sent(), sender.is_closed())
}

#[test]
fn a_full_queue_takes_no_end(rt: HostRuntime) -> Result<(), Fail> {
    let (queue, mut taker) = shared_queue(rt.alloc(), 1)?;
    let mut sender = sender_of(&queue, &mut taker, 0)?;
    assert_eq!(rt; sender.send(&rt, write(16)), Ok(()));
    assert_eq!(rt;
        sender.send(&rt, write(17)),
        Err(SendError::Full(write(17)))
    );
    assert_eq!(rt;
        sender.close(&rt, false),
        Err(SendError::Full(Event::end(false)))
    );
    assert_eq!(rt; state_of(&sender), (0, 1, false));
    assert!(rt; queue.pop(&rt, &mut taker).is_some());
    assert_eq!(rt; sender.close(&rt, false), Ok(()));
    assert_eq!(rt; state_of(&sender), (0, 2, true));
    Ok(())
}

#[test]
fn what_three_senders_sent_arrives(rt: HostRuntime) -> Result<(), Fail> {
    let all = three_senders(&rt, rt.alloc(), 1, 100)?.ok_or("a sender refused")?;
    assert_eq!(rt; all.len(), 303);
    Ok(())
}
