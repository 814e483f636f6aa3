//! The races of a launch kind by kind.

ghost use Rattle.std.specs.Prelude.{◌≡◌, IfOk, map};
ghost use Rattle.gr_model.specs.Prelude.{AreRaces, IsReportOf};
ghost use Rattle.gr_report.specs.Whole.{whole_of};
ghost use Rattle.gr_places.specs.PlaceIndexes.{number_at};
ghost use Rattle.gr_places.specs.SideLines.{place_number};
ghost use Rattle.gr_races.specs.Arrivals.{came_to_first};
ghost use Rattle.gr_races.specs.Listing.{entry_of};
ghost use Rattle.gr_races.specs.Shown.{AreListedRaces};
ghost use Rattle.gr_places.specs.Sides.{sides_said};

use crate::arrivals::came_to_first;
use crate::between::Crossing;
use crate::cause::causes_of;
use crate::kinds::PlaceTags;
use crate::listing::{KindEntry, entries_of};
use gr_explain::records::Records;
use gr_explain::word_pairs::races_by_tags;
use gr_model::memory::Memory;
use gr_model::traces::Traces;
use gr_places::index::PlaceIndex;
use gr_places::sides::Sides;
use gr_replay::detect::detect;
use gr_report::report::Report;
use std::alloc::{Allocator, Global};

/// The races of a launch kind by kind, and its report.
#[derive(Drop)]
#[derive_where(Debug)]
pub struct RacesByKind<A: Allocator = Global> {
    /// The kinds, each with its races.
    pub kinds: Vec<KindEntry<A>, A>,
    /// How many racy words there are.
    pub races: usize,
    /// The report.
    pub report: Report<A>,
    /// For each item of its group its barrier of the first divergent instance, if it came; nothing if no instance is divergent.
    pub came: Vec<Option<Crossing>, A>,
}

impl<A: Allocator> RacesByKind<A> {
    /// The first kinds, at most this many.
    pub fn at_most(&self, most: Option<u32>) -> &[KindEntry<A>] {
        match most {
            None => &self.kinds,
            Some(most) => &self.kinds[..self.kinds.len().min(most as usize)],
        }
    }
}

/// The races of a launch kind by kind, and its report, which is this one.
fn list_found<A: Allocator + Copy>(
    alloc: A,
    traces: &Traces<A>,
    tags: &PlaceTags<'_, A>,
    causes: bool,
    report: Report<A>,
) -> Result<RacesByKind<A>, Memory>
    requires same { tags.now.records.now ≡ traces.now }
    requires races { AreRaces traces.now report.races }
    ensures listed { IfOk result (λ r. AreListedRaces traces.now (number_at tags.now.index.now) causes (map entry_of r.kinds.items) r.races) }
    ensures report { IfOk result (λ r. r.report ≡ report) }
    ensures came { IfOk result (λ r. r.came.items ≡ came_to_first traces.now r.report.divergences) }
{
    let races = races_by_tags(alloc, traces, report.races.as_slice(), tags)?;
    let told = if causes {
        causes_of(alloc, traces, &races)?
    } else {
        Vec::new(alloc)
    };
    let kinds = entries_of(alloc, tags, &races, &told)?;
    let came = came_to_first(alloc, traces, report.divergences.as_slice())?;
    Ok(RacesByKind {
        kinds,
        races: report.races.as_slice().len(),
        report,
        came,
    })
}

/// The races of a launch kind by kind, and its report, if this index has the places.
fn list_races<A: Allocator + Copy>(
    alloc: A,
    traces: &Traces<A>,
    index: &PlaceIndex<'_, A>,
    causes: bool,
) -> Result<RacesByKind<A>, Memory>
    ensures listed { IfOk result (λ r. AreListedRaces traces.now (number_at index.now) causes (map entry_of r.kinds.items) r.races) }
    ensures report { IfOk result (λ r. IsReportOf traces.now (whole_of r.report)) }
    ensures came { IfOk result (λ r. r.came.items ≡ came_to_first traces.now r.report.divergences) }
{
    let report = detect(alloc, traces)?;
    let records = Records::of(alloc, traces)?;
    let tags = PlaceTags {
        records: &records,
        index,
    };
    list_found(alloc, traces, &tags, causes, report)
}

/// The races of a launch kind by kind, and its report.
///
/// # Errors
/// `Memory`: out of memory.
#[tactic(auto, using(crate::proofs::KindLemmas::numbers_said))]
pub fn races_by_kind<A: Allocator + Copy>(
    alloc: A,
    traces: &Traces<A>,
    sides: &Sides<'_>,
    causes: bool,
) -> Result<RacesByKind<A>, Memory>
    ensures listed { IfOk result (λ r. AreListedRaces traces.now (place_number (sides_said sides.now).places) causes (map entry_of r.kinds.items) r.races) }
    ensures report { IfOk result (λ r. IsReportOf traces.now (whole_of r.report)) }
    ensures came { IfOk result (λ r. r.came.items ≡ came_to_first traces.now r.report.divergences) }
{
    let index = PlaceIndex::of(alloc, sides.places)?;
    list_races(alloc, traces, &index, causes)
}
