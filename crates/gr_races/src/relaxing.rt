//! A launch with one of its rules relaxed: the same records, but for the flags of its barriers or the scopes of its
//! atomics.

ghost use Rattle.std.specs.Prelude.{◌≡◌, IsTrue};
ghost use Rattle.std.specs.List.{list_all};
ghost use Rattle.gr_races.specs.Relaxing as spec;

use gr_model::event::{Event, Kind, Scope};
use gr_model::traces::Traces;
use gr_taking::source::Reading;
use std::alloc::Allocator;

/// A rule that can be relaxed.
#[derive(Clone, Copy, Debug, PartialEq, Eq)]
pub enum Relaxation {
    /// The flags of each barrier name both memories.
    BothFlags,
    /// Each atomic access has device scope.
    DeviceScope,
}

impl Relaxation {
    /// What a record says if the rule is relaxed.
    fn relaxed_kind(self, kind: Kind) -> Kind
        ensures { result ≡ spec.relaxed_kind self kind }
    {
        match (self, kind) {
            (Relaxation::BothFlags, Kind::Barrier { .. }) => Kind::Barrier {
                global: true,
                local: true,
            },
            (Relaxation::DeviceScope, Kind::Load(_, order)) => Kind::Load(Scope::Device, order),
            (Relaxation::DeviceScope, Kind::Store(_, order)) => Kind::Store(Scope::Device, order),
            (Relaxation::DeviceScope, Kind::Rmw(_, order)) => Kind::Rmw(Scope::Device, order),
            (Relaxation::BothFlags, Kind::Load(_, _) | Kind::Store(_, _) | Kind::Rmw(_, _))
            | (Relaxation::DeviceScope, Kind::Barrier { .. })
            | (_, Kind::Read | Kind::Write | Kind::End { .. }) => kind,
        }
    }
}

impl Reading for Relaxation {
    ghost read_as = { spec.relaxed_event };

    /// A record if the rule is relaxed: the same but for its kind.
    fn read(&self, event: &Event) -> Event {
        Event {
            kind: self.relaxed_kind(event.kind),
            ..*event
        }
    }
}

/// Whether relaxing a rule leaves all records of a list as they are.
fn are_relaxed(relaxation: Relaxation, list: &[Event]) -> bool
    ensures { result ≡ list_all (λ x. spec.is_relaxed relaxation x.kind) list.now }
{
    list.iter()
        .all(|event| relaxation.relaxed_kind(event.kind) == event.kind)
}

/// Whether relaxing a rule leaves a launch as it is.
pub(crate) fn changes_nothing<A: Allocator>(traces: &Traces<A>, relaxation: Relaxation) -> bool
    ensures { IsTrue result → spec.relaxed relaxation traces.now ≡ traces.now }
{
    for group in 0..traces.shape().groups() {
        if !are_relaxed(relaxation, traces.list(group)) {
            return false;
        }
    }
    true
}
