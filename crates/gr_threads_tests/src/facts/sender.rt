//! Senders.

use crate::route::tests::senders::lone_sender;
use crate::route::three_senders::write;
use gr_model::event::Event;
use gr_threads::sender::{SendError, Sender};
use std::sync::Wait;
use std::test::*;

/// A sender counts the event that it takes.
fn send_of_a_write<R: Wait>(rt: &R, sender: &mut Sender) -> Option<()> {
    let before = sender.sent();
    sender.send(rt, write(16)).ok()?;
    prove!(sender.sent() > before);
    Some(())
}

/// A cut end comes back cut.
fn close_as_cut<R: Wait>(rt: &R, sender: &mut Sender) -> Option<()> {
    let Err(SendError::Full(end)) = sender.close(rt, true) else {
        return None;
    };
    prove!(end == Event::end(true));
    Some(())
}

/// A closed sender takes no event.
fn send_of_a_closed_sender<R: Wait>(rt: &R, sender: &mut Sender) -> Option<()> {
    if !sender.is_closed() {
        return None;
    }
    prove!(sender.send(rt, write(16)) == Err(SendError::Closed));
    Some(())
}

#[test]
fn a_sender(rt: HostRuntime) -> Result<(), Fail> {
    let mut sender = lone_sender(rt.alloc())?;
    assert_eq!(rt; send_of_a_write(&rt, &mut sender), Some(()));
    assert_eq!(rt; close_as_cut(&rt, &mut sender), Some(()));
    let mut other = lone_sender(rt.alloc())?;
    assert_eq!(rt; other.close(&rt, false), Ok(()));
    assert_eq!(rt; send_of_a_closed_sender(&rt, &mut other), Some(()));
    Ok(())
}
