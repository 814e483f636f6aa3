//! The races of a launch, kind by kind.

ghost use Rattle.std.specs.Prelude.{◌≡◌, IfOk, OnOk, map, slice_get};
ghost use Rattle.std.specs.List.{list_any};
ghost use Rattle.gr_places.specs.PlaceIndexes.{number_at};
ghost use Rattle.gr_races.specs.Kinds.{all_kinded, same_kind};
ghost use Rattle.gr_races.specs.Listing as spec;

use crate::cause::Cause;
use crate::kinds::{KindedRace, PlaceTags, RaceKind};
use crate::runs::{Run, runs_of};
use gr_model::memory::Memory;
use gr_model::race::Race;
use std::alloc::{Allocator, Global};

/// The races of one kind.
#[derive(Drop)]
#[derive_where(Debug)]
pub struct KindEntry<A: Allocator = Global> {
    /// The kind.
    pub kind: RaceKind,
    /// The races, by their words ascending.
    pub races: Vec<Race, A>,
    /// The runs of their words.
    pub runs: Vec<Run, A>,
}

/// The cause of the race at a place, if causes were found.
fn cause_at(causes: &[Cause], place: usize) -> Option<Cause>
    ensures { result ≡ slice_get causes.now place }
{
    causes.get(place).copied()
}

/// The races with their kinds and these causes, the first of the first race.
fn all_kinded<A: Allocator + Copy>(
    alloc: A,
    tags: &PlaceTags<'_, A>,
    races: &[Race],
    causes: &[Cause],
) -> Result<Vec<KindedRace, A>, Memory>
    ensures { IfOk result (λ rows. rows.items ≡ all_kinded tags.now.records.now (number_at tags.now.index.now) races.now causes.now) }
{
    let rows = races
        .iter()
        .enumerate()
        .filter_map(|(place, race)| tags.kinded(race, cause_at(causes, place)))
        .collect(alloc)?;
    Ok(rows)
}

/// Whether a kind is one of these.
fn has_kind(kinds: &[RaceKind], kind: RaceKind) -> bool
    ensures { result ≡ list_any (λ l. same_kind l kind) kinds.now }
{
    kinds.iter().any(|kept| *kept == kind)
}

/// Keeps a kind if it is a new one.
fn keep_kind<A: Allocator>(kinds: &mut Vec<RaceKind, A>, kind: RaceKind) -> Result<(), Memory>
    ensures { OnOk result (kinds.new.items ≡ spec.with_kind kinds.old.items kind) }
{
    if !has_kind(kinds, kind) {
        kinds.push(kind)?;
    }
    Ok(())
}

/// The kinds of races, in the order in which the first of each comes.
fn kinds_of<A: Allocator>(alloc: A, rows: &[KindedRace]) -> Result<Vec<RaceKind, A>, Memory>
    ensures { IfOk result (λ kinds. kinds.items ≡ spec.kinds_of rows.now) }
{
    let mut kinds = Vec::new(alloc);
    for row in rows {
        keep_kind(&mut kinds, row.kind)?;
    }
    Ok(kinds)
}

/// The races of a kind.
fn races_in<A: Allocator>(
    alloc: A,
    rows: &[KindedRace],
    kind: RaceKind,
) -> Result<Vec<Race, A>, Memory>
    ensures { IfOk result (λ races. races.items ≡ spec.races_in rows.now kind) }
{
    let races = rows
        .iter()
        .filter(|row| row.kind == kind)
        .map(|row| row.race)
        .collect(alloc)?;
    Ok(races)
}

/// The races of a kind, with their runs.
fn entry_of_kind<A: Allocator + Copy>(
    alloc: A,
    rows: &[KindedRace],
    kind: RaceKind,
) -> Result<KindEntry<A>, Memory>
    ensures { IfOk result (λ entry. spec.entry_of entry ≡ spec.entry rows.now kind) }
{
    let races = races_in(alloc, rows, kind)?;
    let runs = runs_of(alloc, &races)?;
    Ok(KindEntry { kind, races, runs })
}

/// The races kind by kind, in the order in which the first of each comes.
fn list_kinds<A: Allocator + Copy>(
    alloc: A,
    rows: &[KindedRace],
) -> Result<Vec<KindEntry<A>, A>, Memory>
    ensures { IfOk result (λ entries. map spec.entry_of entries.items ≡ spec.entries rows.now) }
{
    let kinds = kinds_of(alloc, rows)?;
    let mut entries = Vec::new(alloc);
    for kind in &kinds {
        entries.push(entry_of_kind(alloc, rows, *kind)?)?;
    }
    Ok(entries)
}

/// The races with their kinds and these causes, those of two tags before those of one.
pub(crate) fn ordered_rows<A: Allocator + Copy>(
    alloc: A,
    tags: &PlaceTags<'_, A>,
    races: &[Race],
    causes: &[Cause],
) -> Result<Vec<KindedRace, A>, Memory>
    ensures { IfOk result (λ rows. rows.items ≡ spec.in_order (all_kinded tags.now.records.now (number_at tags.now.index.now) races.now causes.now)) }
{
    let rows = all_kinded(alloc, tags, races, causes)?;
    let mut ordered: Vec<KindedRace, A> = rows
        .iter()
        .copied()
        .filter(|row| !row.kind.is_alike())
        .collect(alloc)?;
    let alike: Vec<KindedRace, A> = rows
        .iter()
        .copied()
        .filter(|row| row.kind.is_alike())
        .collect(alloc)?;
    ordered.extend_from_slice(&alike)?;
    Ok(ordered)
}

/// The races kind by kind, those of two tags before those of one, with these causes, the first of the first race.
pub(crate) fn entries_of<A: Allocator + Copy>(
    alloc: A,
    tags: &PlaceTags<'_, A>,
    races: &[Race],
    causes: &[Cause],
) -> Result<Vec<KindEntry<A>, A>, Memory>
    ensures { IfOk result (λ entries. map spec.entry_of entries.items ≡ spec.entries (spec.in_order (all_kinded tags.now.records.now (number_at tags.now.index.now) races.now causes.now))) }
{
    let rows = ordered_rows(alloc, tags, races, causes)?;
    list_kinds(alloc, &rows)
}
