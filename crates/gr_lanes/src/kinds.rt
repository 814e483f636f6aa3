//! Which records are releases, barriers and mere accesses.

ghost use Rattle.std.specs.Prelude.{◌≡◌, ◌↔◌, IsTrue};
ghost use Rattle.gr_model.specs.Access as model;
ghost use Rattle.gr_model.specs.Barriers as model_barriers;
ghost use Rattle.gr_lanes.specs.Takes.{IsMereAccess};

use gr_model::event::{Event, Kind};

/// Whether an event is a release.
pub fn is_release(event: &Event) -> bool
    ensures { result ≡ model.is_release event.now }
{
    match event.kind {
        Kind::Load(_, order) | Kind::Store(_, order) | Kind::Rmw(_, order) => order.releases(),
        _ => false,
    }
}

/// Whether an event is a barrier.
pub fn is_barrier(event: &Event) -> bool
    ensures { result ≡ model_barriers.is_barrier event.now }
{
    matches!(event.kind, Kind::Barrier { .. })
}

/// Whether an event is a mere access: one that releases nothing and names nothing.
#[inline(always)]
pub fn is_mere_access(event: &Event) -> bool
    ensures { IsTrue result ↔ IsMereAccess event.now }
{
    !event.kind.is_end()
        && !is_barrier(event)
        && !is_release(event)
        && event.names.as_slice().is_empty()
}
