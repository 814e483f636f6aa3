//! A worked row of barrier instances. A call to which a growth was refused leaves what is known as it was, and then gives the row's answer.

ghost use Rattle.std.specs.Prelude.{◌≡◌, ◌<◌, ◌≤◌, ◌+◌, ◌∷◌, [], length, OnErr};
ghost use Rattle.gr_model.specs.declared.event.ItemId.{ItemId};
ghost use Rattle.gr_barriers.specs.Arrived.{sizes_of, marks_of};

use crate::launch::{item, new_instances};
use gr_barriers::instances::{BarrierError, Instances, State};
use gr_barriers::{Divergence, DivergenceCause};
use gr_model::memory::Memory;
use refusing::growths::refuse_each;
use std::alloc::Allocator;

/// The states of the first three instances.
fn states<A: Allocator>(instances: &Instances<A>) -> [Option<State>; 3] {
    [
        instances.state(0, 0),
        instances.state(0, 1),
        instances.state(0, 2),
    ]
}

/// An item's barrier at a site with both flags, where no item has brought more than `so_far`.
fn arrive_once<A: Allocator>(
    instances: &mut Instances<A>,
    place: u16,
    site: u32,
    so_far: u32,
) -> Result<u32, BarrierError>
    requires few { (i : ItemId) → length (marks_of instances.old i) ≤ so_far }
    requires small { so_far < 100 }
    ensures more { (i : ItemId) → length (marks_of instances.new i) ≤ so_far + 1 }
    ensures sizes { sizes_of instances.new ≡ sizes_of instances.old }
    ensures err { OnErr result (instances.new ≡ instances.old) }
{
    instances.arrive(item(place), site, true, true)
}

fn arrive<A: Allocator>(
    instances: &mut Instances<A>,
    place: u16,
    site: u32,
    so_far: u32,
) -> Result<u32, BarrierError>
    requires few { (i : ItemId) → length (marks_of instances.old i) ≤ so_far }
    requires small { so_far < 100 }
    ensures more { (i : ItemId) → length (marks_of instances.new i) ≤ so_far + 1 }
    ensures sizes { sizes_of instances.new ≡ sizes_of instances.old }
{
    let before = states(instances);
    match arrive_once(instances, place, site, so_far) {
        Err(BarrierError::Memory) if states(instances) == before => arrive_once(
            instances, place, site, so_far,
        ),
        answer => answer,
    }
}

fn end_group<A: Allocator>(instances: &mut Instances<A>) -> Result<(), BarrierError>
    requires sizes { sizes_of instances.old ≡ 2 ∷ [] }
    ensures sizes { sizes_of instances.new ≡ 2 ∷ [] }
    ensures marks { (i : ItemId) → length (marks_of instances.new i) ≡ length (marks_of instances.old i) }
{
    instances.end_group(0)
}

/// The first three divergences.
fn divergences<A: Allocator + Copy>(instances: &Instances<A>) -> Option<[Option<Divergence>; 3]> {
    let list = match instances.divergences() {
        Ok(list) => list,
        Err(_) => instances.divergences().ok()?,
    };
    Some([
        list.get(0).copied(),
        list.get(1).copied(),
        list.get(2).copied(),
    ])
}

/// What the row shows: the answers of three arrivals, the state of the first instance after one and after two of them,
/// the divergences once the group has ended, and the answers of two arrivals after that.
type Seen = (
    [Result<u32, BarrierError>; 3],
    [Option<State>; 2],
    [Option<Divergence>; 3],
    [Result<u32, BarrierError>; 2],
);

/// Item 0 at site 1, item 1 at site 2, item 0 at site 1 again, the end of the group, and arrivals of items 0 and 2.
fn arrivals_and_an_end<A: Allocator + Copy>(instances: &mut Instances<A>) -> Option<Seen>
    requires sizes { sizes_of instances.old ≡ 2 ∷ [] }
    requires none { (i : ItemId) → length (marks_of instances.old i) ≤ 0 }
{
    let first = arrive(instances, 0, 1, 0);
    let after_one = instances.state(0, 0);
    let second = arrive(instances, 1, 2, 1);
    let after_two = instances.state(0, 0);
    let third = arrive(instances, 0, 1, 2);
    if end_group(instances).is_err() {
        return None;
    }
    let listed = divergences(instances)?;
    let late = arrive(instances, 0, 1, 3);
    let unknown = arrive(instances, 2, 1, 4);
    Some((
        [first, second, third],
        [after_one, after_two],
        listed,
        [late, unknown],
    ))
}

/// Whether new instances show this, or memory ran out before the first arrival.
fn is_seen<A: Allocator + Copy>(alloc: A, want: &Seen) -> Result<bool, Memory> {
    let mut instances = new_instances(alloc)?;
    Ok(arrivals_and_an_end(&mut instances) == Some(*want))
}

/// The divergence of an instance of group 0.
fn divergence(instance: u32, cause: DivergenceCause) -> Divergence {
    Divergence {
        group: 0,
        instance,
        cause,
    }
}

#[test]
fn arrivals_and_divergences(rt: HostRuntime) {
    let want = (
        [Ok(0), Ok(0), Ok(1)],
        [Some(State::Waiting), Some(State::Divergent)],
        [
            Some(divergence(0, DivergenceCause::Site)),
            Some(divergence(1, DivergenceCause::Missing)),
            None,
        ],
        [Err(BarrierError::Ended(0)), Err(BarrierError::UnknownItem)],
    );
    let growths = refuse_each(rt.alloc(), 1, |heap| is_seen(heap, &want));
    assert!(rt; growths.is_ok(), "{growths:?}");
}
