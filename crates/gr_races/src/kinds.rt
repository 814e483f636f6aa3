//! What kind of race two accesses are.

ghost use Rattle.std.specs.Prelude.{◌≡◌};
ghost use Rattle.gr_places.specs.PlaceIndexes.{number_at};
ghost use Rattle.gr_races.specs.Kinds as spec;

use crate::cause::Cause;
use gr_clocks::clocks::memory_of;
use gr_explain::records::Records;
use gr_explain::tags::Tags;
use gr_model::event::{EventId, Kind, Space};
use gr_model::race::Race;
use gr_places::index::PlaceIndex;
use gr_places::places::Placed;
use std::alloc::Allocator;

/// What an access does, without its scope and its order.
#[derive(Clone, Copy, Debug, PartialEq, Eq)]
pub enum Operation {
    /// A plain read.
    Read,
    /// A plain write.
    Write,
    /// An atomic load.
    Load,
    /// An atomic store.
    Store,
    /// An atomic read-modify-write.
    Rmw,
}

/// What an access does, and its place in the source.
#[derive(Clone, Copy, Debug, PartialEq, Eq)]
pub struct PlacedOperation {
    /// What it does.
    pub operation: Operation,
    /// The number of its place, if the file of places has it.
    pub place: Option<usize>,
}

/// The kind of a race.
#[derive(Clone, Copy, Debug, PartialEq, Eq)]
pub struct RaceKind {
    /// The memory of the word.
    pub space: Space,
    /// What one access does, and where: the one with the lesser tag.
    pub first: PlacedOperation,
    /// What the other access does, and where.
    pub second: PlacedOperation,
    /// Whether both events are of one work-group.
    pub one_group: bool,
    /// The cause of the race, if causes were asked for.
    pub cause: Option<Cause>,
}

impl RaceKind {
    /// Whether both accesses do the same at one place, or at no known one.
    pub fn is_alike(&self) -> bool
        ensures { result ≡ spec.is_alike self.now }
    {
        tag_of(self.first) == tag_of(self.second)
    }

    /// Whether the accesses have these tags, in any order.
    pub(crate) fn is_of(&self, tag: u128, other: u128) -> bool
        ensures { result ≡ spec.is_of_tags self.now tag other }
    {
        let (first, second) = (tag_of(self.first), tag_of(self.second));
        (first == tag && second == other) || (first == other && second == tag)
    }

    /// Whether both accesses are plain writes, or both atomic stores, of one place in the source.
    pub fn both_write_here(&self) -> bool
        ensures { result ≡ spec.both_write_here self.now }
    {
        self.is_alike()
            && self.first.place.is_some()
            && matches!(self.first.operation, Operation::Write | Operation::Store)
    }
}

/// A race and its kind.
#[derive(Clone, Copy, Debug)]
pub struct KindedRace {
    /// The kind.
    pub kind: RaceKind,
    /// The race, turned so that its first event is that of the kind's first access.
    pub race: Race,
}

/// What a record of this kind does, or `None` if it is no access.
pub(crate) fn operation_of(kind: Kind) -> Option<Operation>
    ensures { result ≡ spec.operation_of kind }
{
    match kind {
        Kind::Read => Some(Operation::Read),
        Kind::Write => Some(Operation::Write),
        Kind::Load(_, _) => Some(Operation::Load),
        Kind::Store(_, _) => Some(Operation::Store),
        Kind::Rmw(_, _) => Some(Operation::Rmw),
        Kind::Barrier { .. } | Kind::End { .. } => None,
    }
}

/// The number of an operation: those that modify come first.
fn operation_number(operation: Operation) -> u128
    ensures { result ≡ spec.operation_number operation }
{
    match operation {
        Operation::Write => 0,
        Operation::Store => 1,
        Operation::Rmw => 2,
        Operation::Read => 3,
        Operation::Load => 4,
    }
}

/// The tag of what an access does and where: no place comes first, then the places by their numbers.
fn tag_of(placed: PlacedOperation) -> u128
    ensures { result ≡ spec.tag_of placed }
{
    let place = placed.place.map_or(0, |number| number as u128 + 1);
    place * 5 + operation_number(placed.operation)
}

/// The tags of the events of a launch, from its records and the places of its events: two events have one tag exactly if they do the same
/// at one place, or at no known one.
#[derive(Clone, Copy)]
pub(crate) struct PlaceTags<'a, A: Allocator> {
    /// The records.
    pub(crate) records: &'a Records<'a, A>,
    /// The places.
    pub(crate) index: &'a PlaceIndex<'a, A>,
}

impl<A: Allocator> PlaceTags<'_, A> {
    /// What an event does, and where, or `None` if it is not there or is no access.
    fn placed_at(&self, event: EventId) -> Option<PlacedOperation>
        ensures { result ≡ spec.placed_at self.now.records.now (number_at self.now.index.now) event }
    {
        let operation = operation_of(self.records.event_at(event)?.kind)?;
        Some(PlacedOperation {
            operation,
            place: self.index.number_of(Placed::Event(event)),
        })
    }

    /// A race with its kind and this cause, or `None` if its events are not two accesses of the launch.
    pub(crate) fn kinded(&self, race: &Race, cause: Option<Cause>) -> Option<KindedRace>
        ensures { result ≡ spec.kinded self.now.records.now (number_at self.now.index.now) (race.now, cause) }
    {
        let first = self.placed_at(race.first)?;
        let second = self.placed_at(race.second)?;
        let (first, second, race) = if tag_of(second) < tag_of(first) {
            let turned = Race {
                word: race.word,
                first: race.second,
                second: race.first,
            };
            (second, first, turned)
        } else {
            (first, second, *race)
        };
        let kind = RaceKind {
            space: memory_of(race.word),
            first,
            second,
            one_group: race.first.at.group == race.second.at.group,
            cause,
        };
        Some(KindedRace { kind, race })
    }
}

impl<A: Allocator> Tags for PlaceTags<'_, A> {
    ghost tag_of = { λ t. spec.tag_at t.records.now (number_at t.index.now) };

    fn tag(&self, event: EventId) -> u128 {
        self.placed_at(event).map_or(0, tag_of)
    }
}
