//! Two senders on threads of their own, through a queue of one place.

ghost use Rattle.std.specs.Prelude.{◌≡◌, [], All, IfSome};
ghost use Rattle.gr_threads_tests.specs.Senders.{IsReceipt, IsSender};

use crate::detector::counts::Counts;
use crate::detector::runs::{Ended, add, begin, finish_with, two_of};
use crate::detector::senders::send_both;
use gr_detector::Watch;
use gr_detector::running::Running;
use gr_model::event::Word;
use gr_report::report::Report;
use gr_threads::receipt::Receipt;
use gr_threads::sender::Sender;
use std::alloc::Allocator;
use std::sync::{Arc, Wait};
use std::test::*;
use std::thread::Threads;
use std::time::Clock;

/// Whether a report is that of the two senders: the words of its races are the global words 50 to 99.
fn is_of_two<A: Allocator>(report: &Report<A>) -> bool {
    let races = report.races.as_slice();
    (report.groups, report.items, report.records, report.held) == (2, 2, 201, 0)
        && races.len() == 50
        && (50_u32..)
            .zip(races)
            .all(|(number, race)| *race == Word::Global(number))
        && report.divergences.as_slice().is_empty()
        && report.unmatched.as_slice().is_empty()
        && report.cut.as_slice().is_empty()
}

/// The report of a run with these receipts, which are there unless a sender was refused. There is room for them.
fn finish_two<R: Threads, A: Allocator + Copy>(
    rt: &R,
    running: Running<A>,
    mut receipts: Vec<Receipt<A>, A>,
    first: Option<Receipt<A>>,
    second: Option<Receipt<A>>,
) -> Result<Report<A>, Ended>
    requires none { receipts.items ≡ [] }
    requires first { IfSome first (IsReceipt running) }
    requires second { IfSome second (IsReceipt running) }
{
    add(&running, &mut receipts, second)?;
    finish_with(rt, running, receipts, first)
}

/// Runs the two senders of a run that was started, and gives the report. There is room for the receipts.
fn end_two<R: Threads + Wait + Clock + Sync, A: Allocator + Copy + Send + Sync>(
    rt: &R,
    running: Running<A>,
    senders: Vec<Sender<A>, A>,
    receipts: Vec<Receipt<A>, A>,
) -> Result<Report<A>, Ended>
    requires senders { All (IsSender running) senders.items }
    requires none { receipts.items ≡ [] }
{
    let (first, second) = two_of(&running, senders).ok_or(Ended::Wrongly)?;
    let (first, second) = send_both(rt, first, second);
    finish_two(rt, running, receipts, first, second)
}

/// Starts a run of the two senders under a watch, and runs them. Gives whether the report is right.
pub(crate) fn run_two<
    R: Threads + Wait + Clock + Copy + Send + Sync + 'static,
    A: Allocator + Copy + Send + Sync + Drop + 'static,
    W: Watch + Send + Sync + Drop + 'static,
>(rt: R, alloc: A, watch: Arc<W, A>) -> Result<bool, Ended> {
    let receipts = Vec::with_capacity(alloc, 2).map_err(|_| Ended::NotStarted)?;
    let (senders, running) = begin(rt, alloc, (&[1, 1], 2, 1, 1), watch)?;
    let report = end_two(&rt, running, senders, receipts)?;
    Ok(is_of_two(&report))
}

#[test]
fn two_senders_race_on_fifty_words(rt: HostRuntime) -> Result<(), Fail> {
    let watch = Arc::new(rt.alloc(), Counts::default())?;
    let answer = run_two(rt, rt.alloc(), Arc::try_clone(&watch)?);
    let counts = [101, 100, 100, 99, 50, (1 << 50) - 1, 0];
    assert_eq!(rt; (answer, watch.all()), (Ok(true), counts));
    Ok(())
}
