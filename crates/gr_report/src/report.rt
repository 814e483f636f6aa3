//! The report of a launch, as plain data.

ghost use Rattle.std.specs.Prelude.{◌↔◌, IsTrue};
ghost use Rattle.gr_report.specs.Whole.{whole_of, HasFinding};

use crate::rows::Rows;
use gr_model::event::Word;
use gr_model::report::{Divergence, Unmatched};
use std::alloc::{Allocator, Global};

/// The report of a launch. Those that the detector makes have ascending lists without repeats.
#[derive(Drop)]
#[derive_where(Debug, PartialEq)]
pub struct Report<A: Allocator = Global> {
    /// The racy words: global words before local ones, then by group and number.
    pub races: Rows<Word, A>,
    /// The divergent instances of barriers, by group and instance.
    pub divergences: Rows<Divergence, A>,
    /// The unmatched acquires, by group, item and index.
    pub unmatched: Rows<Unmatched, A>,
    /// The groups whose stream was cut.
    pub cut: Rows<u16, A>,
    /// How many events are held (docs/MODEL.md, "What waits for what"). Races are looked for among the other events
    /// alone.
    pub held: u64,
    /// How many work-groups there are.
    pub groups: u16,
    /// How many work-items there are in all.
    pub items: u32,
    /// How many records there are, ends included.
    pub records: u64,
}

/// Whether the report names a race, a divergent instance of barriers or an unmatched acquire. A cut stream alone is no
/// finding.
pub fn found<A: Allocator>(report: &Report<A>) -> bool
    ensures { IsTrue result ↔ HasFinding (whole_of report.now) }
{
    !report.races.as_slice().is_empty()
        || !report.divergences.as_slice().is_empty()
        || !report.unmatched.as_slice().is_empty()
}
