//! The report of a launch whose records were all taken, and whose events were handled as far as they can be.

ghost use Rattle.std.specs.Prelude.{◌≡◌, IfOk, length};
ghost use Rattle.std.specs.List.{sum_by};
ghost use Rattle.gr_model.specs.Prelude.{ArePrefixes, IsReportButRaces};
ghost use Rattle.gr_report.specs.Whole.{whole_of};
ghost use Rattle.gr_steps.specs.Steps.{IsAtRest};

use gr_model::event::Word;
use gr_model::memory::Memory;
use gr_report::report::Report;
use gr_report::rows::Rows;
use gr_sequencer::sequencer::Sequencer;
use std::alloc::Allocator;

/// How many records were taken of all groups, ends included.
fn records_of<A: Allocator>(sequencer: &Sequencer<A>, groups: u16) -> u64
    requires groups { groups ≡ length sequencer.now.taken.lists }
    requires prefixes { ArePrefixes sequencer.now.taken }
    ensures { result ≡ sum_by length sequencer.now.taken.lists }
{
    let mut records: u64 = 0;
    for group in 0..groups {
        records += u64::from(sequencer.taken(group));
    }
    records
}

/// The report of what a sequencer took, with these races.
/// Requires: no step is left.
///
/// # Errors
/// `Memory`: out of memory.
pub fn report_with<A: Allocator + Copy>(
    sequencer: &Sequencer<A>,
    races: Vec<Word, A>,
) -> Result<Report<A>, Memory>
    requires { IsAtRest sequencer.now.taken sequencer.now.handled }
    ensures but_races { IfOk result (λ report. IsReportButRaces sequencer.now.taken (whole_of report)) }
    ensures races { IfOk result (λ report. report.races ≡ races.items) }
{
    let divergences = sequencer.divergences()?;
    let unmatched = sequencer.unmatched()?;
    let cut = sequencer.cut()?;
    let shape = sequencer.shape();
    Ok(Report {
        races: Rows::of(races),
        divergences: Rows::of(divergences),
        unmatched: Rows::of(unmatched),
        cut: Rows::of(cut),
        held: sequencer.held(),
        groups: shape.groups(),
        items: shape.total(),
        records: records_of(sequencer, shape.groups()),
    })
}
