//! Runs of one work-group under a watch that says what is sent.

ghost use Rattle.gr_threads_tests.specs.Senders.{IsSender, IsSameSender};

use crate::detector::runs::{Ended, Plan, begin, finish_with, pop_last};
use crate::detector::senders::close;
use gr_detector::Watch;
use gr_detector::running::Running;
use gr_threads::sender::Sender;
use std::alloc::Global;
use std::sync::{Arc, Wait};
use std::thread::Threads;
use std::time::Clock;

/// A watch that also says what is sent under it.
pub trait Sends {
    /// Sends all but the end. Gives whether all was sent, and the watch saw meanwhile what it should.
    fn send_under<R: Wait + Clock>(&self, rt: &R, sender: &mut Sender) -> bool
        ensures { IsSameSender sender.old sender.new };
}

/// How a run went: whether all was sent and seen, and of the report how many records and races there are.
pub type Went = (bool, u64, usize);

/// Sends with the sender of a run, closes it, and sums up the report.
fn went<R: Threads + Wait + Clock, W: Sends>(
    rt: &R,
    alloc: Global,
    running: Running,
    mut sender: Sender,
    watch: &W,
) -> Result<Went, Ended>
    requires { IsSender running sender }
{
    let is_sent = watch.send_under(rt, &mut sender);
    let receipt = close(rt, sender);
    let report = finish_with(rt, running, Vec::new(alloc), receipt)?;
    let races = report.races.as_slice().len();
    Ok((is_sent, report.records, races))
}

/// Runs one sender under a watch, and closes it.
pub fn run_one<
    R: Threads + Wait + Clock + Copy + Send + 'static,
    W: Watch + Sends + Send + Sync + Drop + 'static,
>(rt: R, alloc: Global, plan: Plan<'_>, watch: &Arc<W, Global>) -> Result<Went, Ended> {
    let theirs = Arc::try_clone(watch).map_err(|_| Ended::NotStarted)?;
    let (mut senders, running) = begin(rt, alloc, plan, theirs)?;
    let sender = pop_last(&running, &mut senders).ok_or(Ended::Wrongly)?;
    went(&rt, alloc, running, sender, &**watch)
}
