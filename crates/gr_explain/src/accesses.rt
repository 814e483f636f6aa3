//! The accesses of some events of a launch, kept as they are handled.

ghost use Rattle.std.specs.Prelude.{All, IfOk, IsTrue, OnOk};
ghost use Rattle.gr_model.specs.Prelude.{AreAccepted};
ghost use Rattle.gr_taking.specs.Taken.{read_by};
ghost use Rattle.gr_explain.specs.Accesses.{AreBothKept, AreBothThere, AreThoseOf, AreWanted};

use crate::seen::event_of;
use gr_clocks::access::Access;
use gr_model::event::EventId;
use gr_model::memory::Memory;
use gr_model::race::Race;
use gr_model::traces::Traces;
use gr_shadow::lent::LentAccess;
use gr_taking::keeper::Keeper;
use gr_taking::source::Reading;
use gr_taking::traces::follow_until;
use indexmap::{IndexMap, IndexSet};
use std::alloc::Allocator;
use std::hash::{BuildHasherDefault, FoldHasher};

/// A set of events.
type Events<A> = IndexSet<EventId, BuildHasherDefault<FoldHasher>, A>;

/// Accesses, by their events.
pub(crate) type Accesses<A> = IndexMap<EventId, Access<A>, BuildHasherDefault<FoldHasher>, A>;

/// Adds both events of a pair.
fn add_pair<A: Allocator>(events: &mut Events<A>, race: &Race) -> Result<(), Memory>
    ensures added { OnOk result (AreWanted events.new.keys race.now) }
    ensures others { OnOk result ((r : Race) → AreWanted events.old.keys r → AreWanted events.new.keys r) }
{
    events.insert(race.first)?;
    events.insert(race.second)?;
    Ok(())
}

/// The events of pairs.
fn events_of<A: Allocator + Copy>(alloc: A, races: &[Race]) -> Result<Events<A>, Memory>
    ensures { IfOk result (λ events. All (AreWanted events.keys) races.now) }
{
    let mut events = IndexSet::new(alloc);
    for race in races {
        add_pair(&mut events, race)?;
    }
    Ok(events)
}

/// Keeps the accesses of the events that are wanted.
#[derive(Drop)]
struct WantedKeeper<'a, A: Allocator> {
    wanted: &'a Events<A>,
}

impl<A: Allocator + Copy> Keeper<A> for WantedKeeper<'_, A> {
    type Kept = Accesses<A>;

    ghost stands = { λ keeper accesses kept. AreThoseOf keeper.wanted.now.keys accesses kept.entries };

    fn add(&self, kept: &mut Accesses<A>, access: &LentAccess<'_, A>) -> Result<(), Memory> {
        let event = event_of(access);
        if self.wanted.contains(&event) {
            let owned = access.owned()?;
            kept.insert(event, owned)?;
        }
        Ok(())
    }

    fn close(&self, kept: &mut Accesses<A>, group: u16) {}
}

/// Whether the accesses of both events of a pair are kept.
fn are_both_there<A: Allocator>(kept: &Accesses<A>, race: &Race) -> bool
    ensures { IsTrue result → AreBothThere kept.now.entries race.now }
{
    kept.contains_key(&race.first) && kept.contains_key(&race.second)
}

/// Whether the accesses of these many events are kept, and so those of both events of each pair.
fn are_all_there<A: Allocator>(kept: &Accesses<A>, count: usize, races: &[Race]) -> bool
    ensures { IsTrue result → All (AreBothThere kept.now.entries) races.now }
{
    kept.len() >= count && races.iter().all(|race| are_both_there(kept, race))
}

/// The accesses of those events of these pairs that are grounded, in a launch whose records are read so. It handles no more of the launch
/// once it has the accesses of all events.
pub(crate) fn accesses_of_pairs<A: Allocator + Copy, R: Reading>(
    alloc: A,
    traces: &Traces<A>,
    reading: R,
    races: &[Race],
) -> Result<Accesses<A>, Memory>
    requires accepted { AreAccepted traces.now → AreAccepted (read_by (R.read_as reading) traces.now) }
    ensures { IfOk result (λ accesses. All (AreBothKept (read_by (R.read_as reading) traces.now) accesses.entries) races.now) }
{
    let wanted = events_of(alloc, races)?;
    let mut accesses = IndexMap::new(alloc);
    follow_until(
        alloc,
        traces,
        reading,
        &WantedKeeper { wanted: &wanted },
        &mut accesses,
        |accesses| are_all_there(accesses, wanted.len(), races),
    )?;
    Ok(accesses)
}
