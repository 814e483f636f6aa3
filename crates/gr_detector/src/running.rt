//! A run whose threads were started.
//!
//! Invariant: the workers pop from the queues to which the sequencer pushes, in order.

ghost use Rattle.std.specs.Prelude.{◌≡◌, IfErr, IfOk, length};
ghost use Rattle.gr_model.specs.Prelude.{IsReportOf};
ghost use Rattle.gr_report.specs.Whole.{whole_of};
ghost use Rattle.gr_detector.specs.Refusals.{IsHandedBack};
ghost use Rattle.gr_detector.specs.Runs.{AreReceiptsOf, IsEachOnce, sent_by};

use crate::error::FinishError;
use crate::joins::{has_each_once, join_intakes, settle_all, with_races};
use gr_report::report::Report;
use gr_sequencer_thread::end::Parts;
use gr_sequencer_thread::thread::SequencerThread;
use gr_threads::receipt::Receipt;
use gr_threads::worker_thread::WorkerThread;
use std::alloc::{Allocator, Global};
use std::marker::Model;
use std::thread::Threads;

/// A run whose threads were started. Contracts see its configuration, the items of each work-group, and its intake queues.
#[derive(Drop)]
pub struct Running<A: Allocator = Global> {
    pub(crate) alloc: A,
    pub(crate) groups: u16,
    pub(crate) sequencer: SequencerThread<A>,
    pub(crate) workers: Vec<WorkerThread<A>, A>,
}

impl<A: Allocator> Model for Running<A> {
    ghost use Rattle.std.specs.Prelude.{◌≡◌, length};
    ghost use Rattle.gr_detector.specs.Runs.{IsRunning, Run, run_of};

    ghost Value = { Run };

    ghost view = { λ r. run_of r.sequencer };

    ghost invariant = { λ r. (r.groups ≡ length r.sequencer.sizes) × IsRunning r.sequencer r.workers.items };
}

impl<A: Allocator + Copy> Running<A> {
    /// Joins all threads and all seats, and gives the report of the events that were sent; the receipts say which these are.
    /// It waits until all streams have ended and all that can be handled was handled.
    /// Requires: each receipt is of a work-group of this run, from the sender that `start` gave for it.
    ///
    /// # Errors
    /// `Receipts` if some work-group has no receipt or more than one. It gives the run and the receipts back, unchanged.
    /// Else `Memory` if memory ran out in some thread. The run is then over.
    pub fn finish<R: Threads>(
        self,
        rt: &R,
        receipts: Vec<Receipt<A>, A>,
    ) -> Result<Report<A>, FinishError<A>>
        requires { AreReceiptsOf self receipts.items }
        ensures once { IfOk result (λ _. IsEachOnce (length self.sizes) receipts.items) }
        ensures report { IfOk result (λ report. IsReportOf (sent_by self.sizes receipts.items) (whole_of report)) }
        ensures refused { IfErr result (IsHandedBack self receipts.items) }
    {
        if !has_each_once(&receipts, self.groups) {
            return Err(FinishError::Receipts(self, receipts));
        }
        let Running {
            alloc,
            groups: _,
            sequencer,
            workers,
        } = self;
        let Parts {
            mut inlets,
            outlets,
            report,
        } = sequencer.join(rt).into_parts();
        join_intakes(&mut inlets, receipts);
        let races = settle_all(rt, alloc, workers, outlets);
        match (report, races) {
            (Some(report), Ok(races)) => Ok(with_races(report, races)),
            _ => Err(FinishError::Memory),
        }
    }
}
