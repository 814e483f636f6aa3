//! Whether an item's next event may be handled. For a barrier its instance decides, for an acquire the releases that it names.

ghost use Rattle.std.specs.Prelude.{◌≡◌, ◌↔◌, ◌<◌, ◌≤◌, [], true, false, IsTrue, MatchOption, Some, is_some, length, ℕ};
ghost use Rattle.gr_model.specs.Barriers as model_barriers;
ghost use Rattle.gr_model.specs.Prelude.{mark_of};
ghost use Rattle.gr_model.specs.Streams as model;
ghost use Rattle.gr_windows.specs.Windows.{AreWaiting};
ghost use Rattle.gr_lanes.specs.Instances.{HasCome};
ghost use Rattle.gr_lanes.specs.Remembered.{IsEventRemembered, forgotten_of};
ghost use Rattle.gr_order.specs.Forgetting.{IsForgetting};
ghost use Rattle.gr_order.specs.Readiness.{AreReleased, CameAlike, IsNextInstance, IsReleased, MayPass, StandsNext};

use gr_clocks::tally::Tally;
use gr_lanes::instance::{came_with, is_divergent};
use gr_lanes::kinds::is_barrier;
use gr_lanes::lanes::Lanes;
use gr_model::event::{Event, EventId, ItemId, Name, Word, word_of};
use gr_windows::windows::Windows;
use std::alloc::Allocator;

/// Whether two events access the same word, or neither is an access.
fn is_same(mine: Option<Word>, other: Option<Word>) -> bool
    ensures { IsTrue result ↔ (mine ≡ other) }
{
    mine == other
}

/// Whether the release of an acquire's name was handled and has the acquire's word.
fn is_released<A: Allocator>(
    lanes: &Lanes<A>,
    frontier: &Tally<A>,
    group: u16,
    acquire: &Event,
    name: Name,
) -> bool
    ensures { IsTrue result ↔ IsReleased lanes.now.streams frontier.now group acquire.now name }
{
    match lanes.release_at(name) {
        None => false,
        Some(index) => {
            frontier.covers(name.at, index)
                && is_same(lanes.release_word(name), word_of(group, acquire))
        }
    }
}

/// Whether each release that an event of a group names was handled and has the event's word.
fn has_its_releases<A: Allocator>(
    lanes: &Lanes<A>,
    frontier: &Tally<A>,
    group: u16,
    acquire: &Event,
) -> bool
    ensures { IsTrue result ↔ AreReleased lanes.now.streams frontier.now group acquire.now }
{
    let names = acquire.names.as_slice();
    names
        .iter()
        .all(|name| is_released(lanes, frontier, group, acquire, *name))
}

/// Whether an event that was taken is no barrier, or one of a divergent instance.
fn may_pass<A: Allocator>(lanes: &Lanes<A>, event: EventId, taken: &Event) -> bool
    requires there { model.event_at lanes.now.streams event ≡ Some taken.now }
    requires prefixes { model.ArePrefixes lanes.now.streams }
    requires remembered { IsEventRemembered lanes.now event }
    ensures { IsTrue result ↔ MayPass lanes.now.streams event }
{
    if !is_barrier(taken) {
        return true;
    }
    match lanes.barrier_number(event) {
        None => true,
        Some(number) => is_divergent(lanes, event.at.group, number),
    }
}

/// Whether an event is no barrier and names no releases.
pub(crate) fn is_plain(event: &Event) -> bool
    ensures { IsTrue result → (model_barriers.is_barrier event.now ≡ false) × (event.now.names ≡ []) }
{
    !is_barrier(event) && event.names.as_slice().is_empty()
}

/// Whether an item's next event waits for nothing that was not handled.
pub(crate) fn is_ready<A: Allocator>(
    lanes: &Lanes<A>,
    frontier: &Tally<A>,
    event: EventId,
    taken: &Event,
) -> bool
    requires there { model.event_at lanes.now.streams event ≡ Some taken.now }
    requires prefixes { model.ArePrefixes lanes.now.streams }
    requires remembered { IsEventRemembered lanes.now event }
    ensures { IsTrue result ↔ (AreReleased lanes.now.streams frontier.now event.at.group taken.now × MayPass lanes.now.streams event) }
{
    has_its_releases(lanes, frontier, event.at.group, taken) && may_pass(lanes, event, taken)
}

/// Whether an item's next event is its barrier with this number, and has the mark of `mine`. If `are_alike`, all who came to that
/// instance have it.
#[inline(always)]
fn stands_next<A: Allocator>(
    lanes: &Lanes<A>,
    frontier: &Tally<A>,
    item: ItemId,
    number: u32,
    mine: &Event,
    are_alike: bool,
) -> bool
    requires mark { is_some (mark_of mine.now) ≡ true }
    requires remembered { forgotten_of lanes.now item.group ≤ number }
    requires alike { IsTrue are_alike → CameAlike lanes.now.streams item.group number (mark_of mine.now) item.item }
    ensures { IsTrue result ↔ StandsNext lanes.now.streams frontier.now item.group number (mark_of mine.now) item.item }
{
    match lanes.barrier_at(item, number) {
        None => false,
        Some(index) => {
            index == frontier.get(item) && (are_alike || came_with(lanes, item, number, mine))
        }
    }
}

/// Whether the next event of each item of a group is its barrier with this number, and has the mark of `mine`, one of them.
fn all_stand_next<A: Allocator>(
    lanes: &Lanes<A>,
    frontier: &Tally<A>,
    group: u16,
    number: u32,
    mine: &Event,
) -> bool
    requires group { group < length lanes.now.streams.sizes }
    requires come { HasCome lanes.now.streams group number mine.now }
    requires remembered { forgotten_of lanes.now group ≤ number }
    ensures { IsTrue result ↔ ((i : ℕ) → i < model.size_of lanes.now.streams group → StandsNext lanes.now.streams frontier.now group number (mark_of mine.now) i) }
{
    let are_alike = lanes.none_differs(group, number);
    for item in 0..lanes.shape().items(group) {
        let at = ItemId { group, item };
        if !stands_next(lanes, frontier, at, number, mine, are_alike) {
            return false;
        }
    }
    true
}

/// The instance of a group whose barriers are the next events of all items and have one mark, if there is one.
pub(crate) fn next_instance<A: Allocator>(
    lanes: &Lanes<A>,
    frontier: &Tally<A>,
    windows: &Windows<A>,
    group: u16,
) -> Option<u32>
    requires group { group < length lanes.now.streams.sizes }
    requires waiting { AreWaiting lanes.now.streams frontier.now windows.now }
    requires forgets { IsForgetting lanes.now frontier.now }
    requires prefixes { model.ArePrefixes lanes.now.streams }
    ensures { MatchOption result ((k : ℕ) → ¬ IsNextInstance lanes.now.streams frontier.now group k) (λ k. IsNextInstance lanes.now.streams frontier.now group k) }
{
    let first = ItemId { group, item: 0 };
    let index = frontier.get(first);
    let event = EventId { at: first, index };
    let mine = windows.waiting(first, 0)?;
    let number = lanes.barrier_number(event)?;
    all_stand_next(lanes, frontier, group, number, &mine).then_some(number)
}
