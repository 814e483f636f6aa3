//! What each thread does while streams are still open.

use crate::detector::gates::{Apart, Turns, came};
use crate::detector::ones::{Sends, run_one};
use crate::detector::senders::{plain, sends};
use gr_model::event::Kind;
use gr_threads::sender::Sender;
use std::sync::atomic::Ordering;
use std::sync::{Arc, Wait};
use std::test::*;
use std::time::Clock;

impl Sends for Apart {
    /// Sends writes of two words. Gives whether both were sent.
    fn send_under<R: Wait + Clock>(&self, rt: &R, sender: &mut Sender) -> bool {
        sends(rt, sender, plain(0, Kind::Write, 16)) && sends(rt, sender, plain(0, Kind::Write, 17))
    }
}

#[test]
fn two_workers_are_at_work_at_once(rt: HostRuntime) -> Result<(), Fail> {
    let watch = Arc::new(rt.alloc(), Apart::default())?;
    let went = run_one(rt, rt.alloc(), (&[1], 2, 1, 4), &watch);
    let seconds = watch.seconds.load(Ordering::SeqCst);
    let missed = watch.missed.load(Ordering::SeqCst);
    assert_eq!(rt; (went, seconds, missed), (Ok((true, 3, 0)), 1, 0));
    Ok(())
}

impl Sends for Turns {
    /// Sends writes of two words, the second only after the first was accessed. Gives whether both were sent, and that access was
    /// seen.
    fn send_under<R: Wait + Clock>(&self, rt: &R, sender: &mut Sender) -> bool {
        if !sends(rt, sender, plain(0, Kind::Write, 16)) {
            return false;
        }
        self.sent.fetch_add(1, Ordering::SeqCst);
        came(&self.accesses, 1) && sends(rt, sender, plain(0, Kind::Write, 17))
    }
}

#[test]
fn the_sequencer_and_a_worker_wait_for_what_comes_later(rt: HostRuntime) -> Result<(), Fail> {
    let watch = Arc::new(rt.alloc(), Turns::default())?;
    let went = run_one(rt, rt.alloc(), (&[1], 1, 1, 4), &watch);
    let missed = watch.missed.load(Ordering::SeqCst);
    assert_eq!(rt; (went, missed), (Ok((true, 3, 0)), 0));
    Ok(())
}
