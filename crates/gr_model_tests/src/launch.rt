//! Shapes, events, items and barriers of small launches.

ghost use Rattle.std.specs.Prelude.{◌≡◌, ◌≤◌, ◌∷◌, [], IfOk, length, map};
ghost use Rattle.gr_barriers.specs.Arrived.{fresh_group, marks_of, sizes_of};

use gr_barriers::instances::Instances;
use gr_model::event::{Event, ItemId, Kind, Space};
use gr_model::memory::Memory;
use gr_model::names::Names;
use gr_model::shape::Shape;
use std::alloc::Allocator;

/// The shape of groups of these sizes.
pub(crate) fn shape_of<A: Allocator + Copy>(alloc: A, sizes: &[u16]) -> Result<Shape<A>, Memory>
    ensures { IfOk result (λ s. s ≡ sizes.now) }
{
    Shape::new(Vec::from_slice(alloc, sizes)?).map_err(|_| Memory)
}

/// The item of group 0 at this place.
pub(crate) fn item(item: u16) -> ItemId
    ensures { result ≡ record { group = 0; item = item } }
{
    ItemId { group: 0, item }
}

/// An access of item 0 to word 4 of a memory, without names.
pub(crate) fn access(kind: Kind, space: Space) -> Event
    ensures { result ≡ record { item = 0; kind = kind; space = space; word = 4; names = [] } }
{
    Event {
        item: 0,
        kind,
        space,
        word: 4,
        names: Names::none(),
    }
}

/// The barriers of a group of two items. None has come to one yet.
pub(crate) fn new_instances<A: Allocator + Copy>(alloc: A) -> Result<Instances<A>, Memory>
    ensures new { IfOk result (λ v. v ≡ map fresh_group (2 ∷ [])) }
    ensures sizes { IfOk result (λ v. sizes_of v ≡ 2 ∷ []) }
    ensures none { IfOk result (λ v. (i : ItemId) → length (marks_of v i) ≤ 0) }
{
    Instances::new(alloc, &shape_of(alloc, &[2])?)
}
