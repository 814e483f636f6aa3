//! The sources of an acquire: the snapshots of those releases that it names with inclusive scope. Its clock joins them.

ghost use Rattle.std.specs.Prelude.{◌≡◌, ◌<◌, ◌++◌, ◌∷◌, [], Some, MatchOption, Contains, map, length};
ghost use Rattle.gr_model.specs.Prelude.{release_place, event_at};
ghost use Rattle.gr_steps.specs.Steps.{IsReady};
ghost use Rattle.gr_sequencer.specs.Known.{AreSnapshots};
ghost use Rattle.gr_sequencer.specs.Sources.{AreSources, IsSource, LearnsNothing, sources_in};

use crate::known::Snapshots;
use gr_clocks::snapshot::Snapshot;
use gr_model::access::inclusive;
use gr_model::event::{Event, EventId, Name};
use gr_model::limits::MOST_NAMES;
use gr_order::schedule::Schedule;
use std::alloc::Allocator;
use std::marker::Model;

/// Snapshots of releases, at most `MOST_NAMES` of them. Contracts see their list.
#[derive(Drop)]
pub(crate) struct Sources<'a, A: Allocator> {
    places: [&'a Snapshot<A>; MOST_NAMES],
    count: usize,
}

impl<'a, A: Allocator> Model for Sources<'a, A> {
    ghost use Rattle.std.specs.Prelude.{◌≤◌, List, map, take};
    ghost use Rattle.gr_model.specs.declared.limits.TheConstants.{MOST_NAMES};
    ghost use Rattle.gr_clocks.specs.ItemClocks.{ReleaseClock};

    ghost Value = { List ReleaseClock };

    ghost view = { λ l. map (λ s. s.now) (take l.count l.places) };

    ghost invariant = { λ l. l.count ≤ MOST_NAMES };
}

impl<'a, A: Allocator> Sources<'a, A> {
    /// The snapshot of one release.
    fn of(snapshot: &'a Snapshot<A>) -> Sources<'a, A>
        ensures { result ≡ snapshot.now ∷ [] }
    {
        Sources {
            places: [snapshot; MOST_NAMES],
            count: 1,
        }
    }

    /// Adds the snapshot of one more release.
    fn push(&mut self, snapshot: &'a Snapshot<A>)
        requires { length self.old < MOST_NAMES }
        ensures { self.new ≡ self.old ++ snapshot.now ∷ [] }
    {
        let count = self.count;
        let places = &mut self.places[..];
        places[count] = snapshot;
        self.count = count + 1;
    }

    /// The snapshots.
    pub(crate) fn as_slice(&self) -> &[&'a Snapshot<A>]
        ensures { map (λ s. s.now) result.now ≡ self.now }
    {
        &self.places[..self.count]
    }
}

/// The record of the release of this name, which has this index.
fn release_event<A: Allocator>(order: &Schedule<A>, name: Name, index: u32) -> Option<Event>
    requires { release_place order.now.taken name ≡ Some index }
    ensures { result ≡ event_at order.now.taken (record { at = name.at; index = index }) }
{
    order.lanes().release_event(name)
}

/// The snapshot of the release that an event names, if the two are of inclusive scope.
fn source<'a, A: Allocator>(
    order: &Schedule<A>,
    snapshots: &'a Snapshots<A>,
    event: EventId,
    taken: &Event,
    name: Name,
) -> Option<&'a Snapshot<A>>
    requires there { event_at order.now.taken event ≡ Some taken.now }
    requires named { Contains taken.now.names name }
    requires snapshots { AreSnapshots order.now.taken order.now.handled snapshots.now.entries }
    requires ready { IsReady order.now.taken order.now.handled event }
    ensures { MatchOption result (LearnsNothing order.now.taken event name) (λ l. IsSource order.now.taken event name l.now) }
{
    let index = order.lanes().release_at(name)?;
    let release = EventId { at: name.at, index };
    let given = release_event(order, name, index)?;
    if inclusive(&given.kind, release.at.group, &taken.kind, event.at.group) {
        snapshots.get(&release)
    } else {
        None
    }
}

/// The sources with one more.
fn with<'a, A: Allocator>(
    sources: Option<Sources<'a, A>>,
    source: &'a Snapshot<A>,
) -> Sources<'a, A>
    requires { length (sources_in sources) < MOST_NAMES }
    ensures { result ≡ sources_in sources.entry ++ source.now ∷ [] }
{
    match sources {
        None => Sources::of(source),
        Some(mut more) => {
            more.push(source);
            more
        }
    }
}

/// The sources of an event, found name by name. `None` if there are none.
fn sources_from<'a, A: Allocator>(
    order: &Schedule<A>,
    snapshots: &'a Snapshots<A>,
    event: EventId,
    taken: &Event,
) -> Option<Sources<'a, A>>
    requires there { event_at order.now.taken event ≡ Some taken.now }
    requires snapshots { AreSnapshots order.now.taken order.now.handled snapshots.now.entries }
    requires ready { IsReady order.now.taken order.now.handled event }
    ensures { AreSources order.now.taken event (sources_in result) }
{
    let names = taken.names.as_slice();
    let mut learned = None;
    for name in names {
        if let Some(one) = source(order, snapshots, event, taken, *name) {
            learned = Some(with(learned, one));
        }
    }
    learned
}

/// The snapshots that an event joins: those of the releases that it names with inclusive scope. `None` if there are none.
#[inline(always)]
pub(crate) fn sources_of<'a, A: Allocator>(
    order: &Schedule<A>,
    snapshots: &'a Snapshots<A>,
    event: EventId,
    taken: &Event,
) -> Option<Sources<'a, A>>
    requires there { event_at order.now.taken event ≡ Some taken.now }
    requires snapshots { AreSnapshots order.now.taken order.now.handled snapshots.now.entries }
    requires ready { IsReady order.now.taken order.now.handled event }
    ensures { AreSources order.now.taken event (sources_in result) }
{
    if taken.names.as_slice().is_empty() {
        return None;
    }
    sources_from(order, snapshots, event, taken)
}
