//! The acquires that are never reached, though all events before them in their items are.
//!
//! The handled events of each item are its first ones. Once they are the grounded ones, only the next event of an item can be
//! unmatched.

ghost use Rattle.std.specs.Prelude.{◌≡◌, ◌≢◌, ◌↔◌, ◌<◌, ◌+◌, Any, IfOk, IsTrue, MatchOption, OnOk, Some, length};
ghost use Rattle.gr_model.specs.declared.report.Unmatched.{Unmatched as Finding};
ghost use Rattle.gr_model.specs.Prelude.{HasAcquireCause, IsAbsent, names_at, word_at, IsUnmatchedEntry, Lists, UnmatchedBelow};
ghost use Rattle.gr_windows.specs.Windows.{AreWaiting};
ghost use Rattle.gr_order.specs.Acquires.{AreUnmatchedBefore, IsElsewhere, IsGroundedFrontier};

use gr_clocks::tally::Tally;
use gr_lanes::lanes::Lanes;
use gr_model::event::{EventId, ItemId, Name, Word, word_of};
use gr_model::memory::Memory;
use gr_model::report::{AcquireCause, Unmatched};
use gr_windows::windows::Windows;
use std::alloc::Allocator;

/// Whether there is no release of this name.
fn is_absent<B: Allocator>(lanes: &Lanes<B>, name: Name) -> bool
    ensures { IsTrue result ↔ IsAbsent lanes.now.streams name }
{
    lanes.release_at(name).is_none()
}

/// Whether the release of this name is there, with a word other than this.
#[tactic(auto, using(gr_lanes::proofs::IndexLemmas::record_is))]
fn is_elsewhere<B: Allocator>(lanes: &Lanes<B>, name: Name, word: Option<Word>) -> bool
    ensures { IsTrue result ↔ IsElsewhere lanes.now.streams word name }
{
    match lanes.release_at(name) {
        None => false,
        Some(_) => lanes.release_word(name) != word,
    }
}

/// Whether there is no release of one of these names.
fn has_absent<B: Allocator>(lanes: &Lanes<B>, names: &[Name]) -> bool
    ensures { IsTrue result ↔ Any (IsAbsent lanes.now.streams) names.now }
{
    names.iter().any(|name| is_absent(lanes, *name))
}

/// Whether the release of one of these names is there, with a word other than this.
fn has_elsewhere<B: Allocator>(lanes: &Lanes<B>, names: &[Name], word: Option<Word>) -> bool
    ensures { IsTrue result ↔ Any (IsElsewhere lanes.now.streams word) names.now }
{
    names.iter().any(|name| is_elsewhere(lanes, *name, word))
}

/// Why an acquire with these names is unmatched, if it is never reached.
fn cause<B: Allocator>(
    lanes: &Lanes<B>,
    acquire: EventId,
    names: &[Name],
    word: Option<Word>,
) -> AcquireCause
    requires names { names.now ≡ names_at lanes.now.streams acquire }
    requires word { word ≡ word_at lanes.now.streams acquire }
    ensures { HasAcquireCause lanes.now.streams acquire result }
{
    if has_absent(lanes, names) {
        AcquireCause::Absent
    } else if has_elsewhere(lanes, names, word) {
        AcquireCause::OtherWord
    } else {
        AcquireCause::Behind
    }
}

/// The unmatched acquire of an item, if it has one. No item has more.
fn unmatched_of<B: Allocator>(
    lanes: &Lanes<B>,
    frontier: &Tally<B>,
    windows: &Windows<B>,
    item: ItemId,
) -> Option<Unmatched>
    requires waiting { AreWaiting lanes.now.streams frontier.now windows.now }
    requires grounded { IsGroundedFrontier lanes.now.streams frontier.now }
    ensures { MatchOption result ((u : Finding) → IsUnmatchedEntry lanes.now.streams u → u.event.at ≢ item) (λ u. (u.event.at ≡ item) × IsUnmatchedEntry lanes.now.streams u) }
{
    let index = frontier.get(item);
    let event = EventId { at: item, index };
    let taken = windows.waiting(item, 0)?;
    let names = taken.names.as_slice();
    if names.is_empty() {
        return None;
    }
    let cause = cause(lanes, event, names, word_of(item.group, &taken));
    Some(Unmatched { event, cause })
}

/// Adds the unmatched acquires of a group to those of the groups before it.
fn add_group<A: Allocator, B: Allocator>(
    lanes: &Lanes<B>,
    frontier: &Tally<B>,
    windows: &Windows<B>,
    group: u16,
    list: &mut Vec<Unmatched, A>,
) -> Result<(), Memory>
    requires group { group < length lanes.now.streams.sizes }
    requires grounded { IsGroundedFrontier lanes.now.streams frontier.now }
    requires waiting { AreWaiting lanes.now.streams frontier.now windows.now }
    requires before { AreUnmatchedBefore lanes.now.streams group 0 list.old.items }
    ensures { OnOk result (AreUnmatchedBefore lanes.now.streams (group + 1) 0 list.new.items) }
{
    for item in 0..lanes.shape().items(group) {
        if let Some(unmatched) = unmatched_of(lanes, frontier, windows, ItemId { group, item }) {
            list.push(unmatched)?;
        }
    }
    Ok(())
}

/// The unmatched acquires with their causes, by group and then by item. The grounded events of each item are its first ones, as
/// many as the frontier counts; the others wait.
///
/// # Errors
/// `Memory`: out of memory.
pub fn unmatched<A: Allocator, B: Allocator>(
    alloc: A,
    lanes: &Lanes<B>,
    frontier: &Tally<B>,
    windows: &Windows<B>,
) -> Result<Vec<Unmatched, A>, Memory>
    requires grounded { IsGroundedFrontier lanes.now.streams frontier.now }
    requires waiting { AreWaiting lanes.now.streams frontier.now windows.now }
    ensures { IfOk result (λ v. Lists UnmatchedBelow (IsUnmatchedEntry lanes.now.streams) v.items) }
{
    let mut list = Vec::new(alloc);
    for group in 0..lanes.shape().groups() {
        add_group(lanes, frontier, windows, group, &mut list)?;
    }
    Ok(list)
}
