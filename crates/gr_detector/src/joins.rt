//! The end of a run: the receipts are counted, and all seats are joined back.

ghost use Rattle.std.specs.Prelude.{◌≡◌, ◌↔◌, ◌<◌, ◌++◌, ◌∷◌, ◌==◌, [], All, List, IfOk, IsTrue, filter, length};
ghost use Rattle.gr_model.specs.Prelude.{Lists, WordBelow};
ghost use Rattle.gr_report.specs.Whole.{whole_of};
ghost use Rattle.gr_shadow.specs.Clashes.{ClockedAccess, IsHitIn};
ghost use Rattle.gr_sequencer_thread.specs.Feeds.{AreStopped, given_of, intakes_of, works_of};
ghost use Rattle.gr_detector.specs.Runs.{IsEachOnce, worker_queues};
ghost use Rattle.gr_detector.specs.Settling.{ArePopped, IsHere, IsHitAmong, pops_of};

use gr_model::event::Word;
use gr_model::memory::Memory;
use gr_report::report::Report;
use gr_report::rows::Rows;
use gr_sequencer_thread::inlet::Inlet;
use gr_sequencer_thread::outlet::Outlet;
use gr_shadow::merge::merge;
use gr_threads::receipt::Receipt;
use gr_threads::worker_thread::WorkerThread;
use std::alloc::Allocator;
use std::thread::Threads;

/// The number of receipts of a group.
fn count_of<A: Allocator>(receipts: &[Receipt<A>], group: u16) -> usize
    ensures { result ≡ length (filter (λ r. r.group == group) receipts.now) }
{
    receipts
        .iter()
        .filter(|receipt| receipt.group() == group)
        .count()
}

/// Whether there is one receipt of each group, in the order of the groups.
fn are_in_order<A: Allocator>(receipts: &[Receipt<A>], groups: u16) -> bool
    ensures { IsTrue result → IsEachOnce groups receipts.now }
{
    if receipts.len() != usize::from(groups) {
        return false;
    }
    for place in 0..receipts.len() {
        if usize::from(receipts[place].group()) != place {
            return false;
        }
    }
    true
}

/// Whether each group has one receipt. Receipts mostly come in the order of the groups; they are then looked at only once.
pub(crate) fn has_each_once<A: Allocator>(receipts: &[Receipt<A>], groups: u16) -> bool
    ensures { IsTrue result ↔ IsEachOnce groups receipts.now }
{
    if are_in_order(receipts, groups) {
        return true;
    }
    for group in 0..groups {
        if count_of(receipts, group) != 1 {
            return false;
        }
    }
    true
}

/// Joins the seat of each receipt back to the seat that popped its events. What was popped of a receipt's group is then a
/// prefix of what was sent, even if memory ran out.
pub(crate) fn join_intakes<A: Allocator>(
    inlets: &mut Vec<Inlet<A>, A>,
    receipts: Vec<Receipt<A>, A>,
)
    requires some { 0 < length inlets.old.items }
    requires here { All (IsHere (intakes_of inlets.old.items)) receipts.items }
    ensures { ArePopped (pops_of inlets.old.items) receipts.items }
{
    for receipt in receipts {
        let queue = usize::from(receipt.group()) % inlets.len();
        inlets[queue].join_back(receipt.into_seat());
    }
}

/// The words of both lists, or `Memory` if one of them is.
fn merge_all<A: Allocator + Copy>(
    alloc: A,
    words: Result<Vec<Word, A>, Memory>,
    more: Result<Vec<Word, A>, Memory>,
) -> Result<Vec<Word, A>, Memory>
    ensures { (seen : List (List ClockedAccess)) (given : List ClockedAccess) → IfOk words (λ v. Lists WordBelow (IsHitAmong seen) v.items) → IfOk more (λ v. Lists WordBelow (IsHitIn given) v.items) → IfOk result (λ v. Lists WordBelow (IsHitAmong (seen ++ given ∷ [])) v.items) }
{
    let words = words?;
    let more = more?;
    merge(alloc, &words, &more)
}

/// Joins all workers, and the seats of their queues. Returns all words that are hit in the accesses that some worker got, in
/// ascending order, each once.
///
/// # Errors
/// `Memory`, also if it ran out in some worker. All workers are joined even so.
pub(crate) fn settle_all<R: Threads, A: Allocator + Copy>(
    rt: &R,
    alloc: A,
    workers: Vec<WorkerThread<A>, A>,
    outlets: Vec<Outlet<A>, A>,
) -> Result<Vec<Word, A>, Memory>
    requires queues { worker_queues workers.items ≡ works_of outlets.items }
    requires stopped { AreStopped outlets.items }
    ensures { IfOk result (λ words. Lists WordBelow (IsHitAmong (given_of outlets.items)) words.items) }
{
    let mut words = Ok(Vec::new(alloc));
    let mut left = outlets.into_iter();
    for worker in workers {
        let Some(outlet) = left.next() else {
            unreachable!()
        };
        let more = worker.join(rt).settle(outlet.into_seat());
        words = merge_all(alloc, words, more);
    }
    words
}

/// A report with these races.
pub(crate) fn with_races<A: Allocator>(report: Report<A>, races: Vec<Word, A>) -> Report<A>
    ensures { whole_of result ≡ record (whole_of report) { races = races.items } }
{
    let mut report = report;
    report.races = Rows::of(races);
    report
}
