//! What the sequencer's thread leaves.

ghost use Rattle.std.specs.Prelude.{◌≡◌, false, IfSome, OnSome};
ghost use Rattle.std.specs.Option.{option_map};
ghost use Rattle.gr_model.specs.Prelude.{IsReportButRaces};
ghost use Rattle.gr_steps.specs.Steps.{IsAtRest};
ghost use Rattle.gr_report.specs.Whole.{whole_of};
ghost use Rattle.gr_sequencer_thread.specs.Ends as spec;

use crate::inlet::Inlet;
use crate::outlet::Outlet;
use gr_model::config::Config;
use gr_model::shape::Shape;
use gr_report::report::Report;
use gr_sequencer::sequencer::Sequencer;
use gr_taking::reports::report_with;
use std::alloc::{Allocator, Global};
use std::marker::Model;

/// What the sequencer's thread leaves. Contracts see the configuration, the items of each work-group, the seats of all queues,
/// and the report without its races, which is there unless memory ran out.
#[derive(Drop)]
pub struct SequencerEnd<A: Allocator = Global> {
    pub(crate) config: Config,
    pub(crate) shape: Shape<A>,
    pub(crate) inlets: Vec<Inlet<A>, A>,
    pub(crate) outlets: Vec<Outlet<A>, A>,
    pub(crate) report: Option<Report<A>>,
}

impl<A: Allocator> Model for SequencerEnd<A> {
    ghost use Rattle.std.specs.Option.{option_map};
    ghost use Rattle.gr_report.specs.Whole.{whole_of};
    ghost use Rattle.gr_sequencer_thread.specs.Ends as spec;

    ghost Value = { spec.End A };

    ghost view = { λ e. record { config = e.config; sizes = e.shape; takers = e.inlets.items; givers = e.outlets.items; report = option_map whole_of e.report } };

    ghost invariant = { λ e. spec.IsEnd {A = A} (record { config = e.config; sizes = e.shape; takers = e.inlets.items; givers = e.outlets.items; report = option_map whole_of e.report }) };
}

/// What the sequencer's thread leaves, taken apart: the ends of all intake queues and of all workers' queues, in order, and the
/// report without its races, which is there unless memory ran out.
#[derive(Drop)]
pub struct Parts<A: Allocator = Global> {
    pub inlets: Vec<Inlet<A>, A>,
    pub outlets: Vec<Outlet<A>, A>,
    pub report: Option<Report<A>>,
}

impl<A: Allocator> SequencerEnd<A> {
    /// Its parts.
    pub fn into_parts(self) -> Parts<A>
        ensures parts { self ≡ record { config = self.config; sizes = self.sizes; takers = result.inlets.items; givers = result.outlets.items; report = option_map whole_of result.report } }
        ensures end { spec.IsEnd self }
    {
        Parts {
            inlets: self.inlets,
            outlets: self.outlets,
            report: self.report,
        }
    }
}

/// The report of what a sequencer took, without its races, unless memory ran out before, or does now.
/// Requires: unless memory ran out before, no step is left.
pub(crate) fn findings<A: Allocator + Copy>(
    alloc: A,
    sequencer: &Sequencer<A>,
    failed: bool,
) -> Option<Report<A>>
    requires { failed ≡ false → IsAtRest sequencer.now.taken sequencer.now.handled }
    ensures failed { OnSome result (failed ≡ false) }
    ensures report { IfSome result (λ report. IsReportButRaces sequencer.now.taken (whole_of report)) }
{
    if failed {
        return None;
    }
    report_with(sequencer, Vec::new(alloc)).ok()
}
