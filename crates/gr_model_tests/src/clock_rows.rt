//! A worked row of vector clocks. A call to which a growth was refused leaves the counts as they were, and then gives the row's answer.

ghost use Rattle.std.specs.Prelude.{◌≡◌, ◌<◌, ◌∷◌, [], IfOk};

use crate::launch::{item, shape_of};
use gr_clocks::clock::{Clock, ClockError};
use gr_clocks::clocks::Clocks;
use gr_clocks::snapshot::Snapshot;
use gr_model::event::{Scope, Space, Word};
use gr_model::memory::Memory;
use refusing::growths::refuse_each;
use std::alloc::Allocator;

/// The counts of both items.
fn counts<A: Allocator>(clock: &Clock<A>) -> [u32; 2] {
    [clock.get(item(0)), clock.get(item(1))]
}

/// The clocks of two items.
fn new_clocks<A: Allocator + Copy>(alloc: A) -> Result<Clocks<A>, Memory>
    ensures { IfOk result (λ c. c.sizes ≡ 2 ∷ []) }
{
    let shape = shape_of(alloc, &[2])?;
    Clocks::new(alloc, &shape).map_err(|_| Memory)
}

/// The counts of an item's clock in a memory.
fn known<A: Allocator>(clocks: &Clocks<A>, place: u16, space: Space) -> [u32; 2]
    requires sizes { clocks.now.sizes ≡ 2 ∷ [] }
    requires place { place < 2 }
{
    counts(clocks.clock_of(item(place), space))
}

/// The counts of both items' clocks in global memory, then in local memory.
fn all_known<A: Allocator>(clocks: &Clocks<A>) -> [[u32; 2]; 4]
    requires { clocks.now.sizes ≡ 2 ∷ [] }
{
    [
        known(clocks, 0, Space::Global),
        known(clocks, 1, Space::Global),
        known(clocks, 0, Space::Local),
        known(clocks, 1, Space::Local),
    ]
}

/// A call for an item, or for its group.
#[derive(Drop)]
enum Call<'a, A: Allocator> {
    Access,
    Release(Word),
    Acquire(&'a Snapshot<A>),
    AcquireRelease(&'a Snapshot<A>, Word),
    /// A barrier for global memory.
    Meet,
}

/// Makes a call. Gives the snapshot that a release leaves.
fn make_once<A: Allocator + Copy>(
    clocks: &mut Clocks<A>,
    place: u16,
    call: &Call<'_, A>,
) -> Result<Option<Snapshot<A>>, ClockError>
    requires sizes { clocks.old.sizes ≡ 2 ∷ [] }
    requires place { place < 2 }
    ensures { clocks.new.sizes ≡ 2 ∷ [] }
{
    let item = item(place);
    match *call {
        Call::Access => clocks.access(item).map(|()| None),
        Call::Release(word) => clocks.release(item, word, Scope::Device).map(Some),
        Call::Acquire(left) => clocks.acquire(item, &[left]).map(|()| None),
        Call::AcquireRelease(left, word) => clocks
            .acquire_release(item, &[left], word, Scope::Device)
            .map(Some),
        Call::Meet => clocks.meet(0, true, false).map(|()| None),
    }
}

/// Makes a call, again where a growth was refused, which changes nothing.
fn make<A: Allocator + Copy>(
    clocks: &mut Clocks<A>,
    place: u16,
    call: &Call<'_, A>,
) -> Option<Option<Snapshot<A>>>
    requires sizes { clocks.old.sizes ≡ 2 ∷ [] }
    requires place { place < 2 }
    ensures { clocks.new.sizes ≡ 2 ∷ [] }
{
    let before = all_known(clocks);
    if let Ok(left) = make_once(clocks, place, call) {
        return Some(left);
    }
    if all_known(clocks) != before {
        return None;
    }
    make_once(clocks, place, call).ok()
}

/// What each step of the row shows: the first snapshot, item 1's clocks after the acquire, the second snapshot, and all
/// clocks after the barrier.
type Seen = ([u32; 2], [[u32; 2]; 2], [u32; 2], [[u32; 2]; 4]);

/// Of an acquire of item 1 from a release of item 0: the counts after it; and, after an acquire that releases too and a barrier for global
/// memory, those of the second release.
fn acquire_twice_and_meet<A: Allocator + Copy>(
    clocks: &mut Clocks<A>,
    first: &Snapshot<A>,
) -> Option<([[u32; 2]; 2], [u32; 2])>
    requires { clocks.old.sizes ≡ 2 ∷ [] }
    ensures { clocks.new.sizes ≡ 2 ∷ [] }
{
    let _none = make(clocks, 1, &Call::Acquire(first))?;
    let acquired = [
        known(clocks, 1, Space::Global),
        known(clocks, 1, Space::Local),
    ];
    let second = make(clocks, 1, &Call::AcquireRelease(first, Word::Global(24)))??;
    let _none = make(clocks, 0, &Call::Meet)?;
    Some((acquired, counts(second.clock())))
}

/// An access and a release of item 0, an acquire of item 1, one that releases too, and a barrier for global memory.
fn steps_of_two_items<A: Allocator + Copy>(clocks: &mut Clocks<A>) -> Option<Seen>
    requires { clocks.old.sizes ≡ 2 ∷ [] }
{
    let _none = make(clocks, 0, &Call::Access)?;
    let first = make(clocks, 0, &Call::Release(Word::Global(20)))??;
    let (acquired, second) = acquire_twice_and_meet(clocks, &first)?;
    Some((counts(first.clock()), acquired, second, all_known(clocks)))
}

static SEEN: Option<Seen> = Some((
    [2, 0],
    [[2, 1], [0, 1]],
    [2, 2],
    [[3, 3], [3, 3], [3, 0], [0, 3]],
));

/// Whether clocks of their own show that, or memory ran out before the first step.
fn is_seen<A: Allocator + Copy>(alloc: A) -> Result<bool, Memory> {
    let mut clocks = new_clocks(alloc)?;
    Ok(steps_of_two_items(&mut clocks) == SEEN)
}

#[test]
fn releases_acquires_and_barriers(rt: HostRuntime) {
    let growths = refuse_each(rt.alloc(), 1, |heap| is_seen(heap));
    assert!(rt; growths.is_ok(), "{growths:?}");
}
