//! Why the first held event of an item is held.
//!
//! An acquire waits for each release that it names. It is held if one of them is absent, on another word, or held itself. A barrier waits
//! for the events right before the barriers of its instance. It is held if one of them is.

ghost use Rattle.std.specs.Prelude.{◌≡◌, ◌<◌, ℕ, All, Contains, MatchOption, None, Some, length};
ghost use Rattle.gr_model.specs.Prelude.{StandsIn, HasName, IsOfItsWord, Matches, release_place, size_of, word_at, IsGrounded, IsPrevious};
ghost use Rattle.gr_timeline.specs.Chains.{IsCause, LeadsToHeld, leads_to};
ghost use Rattle.gr_timeline.specs.Waiting.{HasGroundedRelease, HaveArrived, IsHeldEvent, IsLate, IsPassed, IsStuck};

use crate::judged::Judged;
use crate::reason::Reason;
use gr_model::event::{EventId, ItemId, Name, Word, word_of};
use std::alloc::Allocator;

/// Why a name of an event on this word holds the event for ever, if it does.
#[tactic(auto, using(gr_lanes::proofs::IndexLemmas::record_is))]
fn root_by_name<A: Allocator>(
    judged: &Judged<A>,
    event: EventId,
    word: Option<Word>,
    name: Name,
) -> Option<Reason>
    requires named { HasName judged.now event name }
    requires word { word ≡ word_at judged.now event }
    ensures { MatchOption result (IsOfItsWord judged.now event name) (λ r. IsCause judged.now event r × (leads_to r ≡ None)) }
{
    match judged.lanes().release_at(name) {
        None => Some(Reason::Absent(name)),
        Some(_) if judged.lanes().release_word(name) == word => None,
        Some(_) => Some(Reason::OtherWord(name)),
    }
}

/// Why one of the names of an event on this word holds the event for ever, if one does: by the first that does.
fn root_by_names<A: Allocator>(
    judged: &Judged<A>,
    event: EventId,
    word: Option<Word>,
    names: &[Name],
) -> Option<Reason>
    requires named { (n : Name) → Contains names.now n → HasName judged.now event n }
    requires word { word ≡ word_at judged.now event }
    ensures { MatchOption result (All (IsOfItsWord judged.now event) names.now) (λ r. IsCause judged.now event r × (leads_to r ≡ None)) }
{
    for name in names {
        if let Some(root) = root_by_name(judged, event, word, *name) {
            return Some(root);
        }
    }
    None
}

/// The release of this name, if it is held.
fn held_release<A: Allocator>(judged: &Judged<A>, event: EventId, name: Name) -> Option<EventId>
    requires named { HasName judged.now event name }
    requires word { IsOfItsWord judged.now event name }
    ensures { MatchOption result (HasGroundedRelease judged.now event name) (λ d. Matches judged.now event d × IsHeldEvent judged.now d) }
{
    let index = judged.lanes().release_at(name)?;
    let release = EventId { at: name.at, index };
    if judged.is_grounded(release) {
        None
    } else {
        Some(release)
    }
}

/// The first release of these names that is held, if one is.
fn first_held_release<A: Allocator>(
    judged: &Judged<A>,
    event: EventId,
    names: &[Name],
) -> Option<EventId>
    requires named { (n : Name) → Contains names.now n → HasName judged.now event n }
    requires words { All (IsOfItsWord judged.now event) names.now }
    ensures { MatchOption result (All (HasGroundedRelease judged.now event) names.now) (λ d. Matches judged.now event d × IsHeldEvent judged.now d) }
{
    for name in names {
        if let Some(release) = held_release(judged, event, *name) {
            return Some(release);
        }
    }
    None
}

/// Why the names of an event hold it, if they do.
fn reason_by_names<A: Allocator>(judged: &Judged<A>, event: EventId) -> Option<Reason>
    requires { IsHeldEvent judged.now event }
    ensures { MatchOption result ((n : Name) → HasName judged.now event n → HasGroundedRelease judged.now event n) (λ r. IsCause judged.now event r × LeadsToHeld judged.now r) }
{
    let Some(taken) = judged.record_of(event) else {
        return None;
    };
    let names = taken.names.as_slice();
    let root = root_by_names(judged, event, word_of(event.at.group, &taken), names);
    if root.is_some() {
        return root;
    }
    match first_held_release(judged, event, names) {
        None => None,
        Some(release) => Some(Reason::Release(release)),
    }
}

/// The event right before an item's barrier of this number, if that event is held.
fn held_before<A: Allocator>(judged: &Judged<A>, item: ItemId, number: u32) -> Option<EventId>
    requires item { item.item < size_of judged.now item.group }
    requires stuck { IsStuck judged.now item.group number }
    ensures { MatchOption result ((b d : EventId) → b.at ≡ item → StandsIn judged.now b item.group number → IsPrevious d b → IsGrounded judged.now d) (λ d. IsLate judged.now item.group number d) }
{
    let index = judged.lanes().barrier_at(item, number)?;
    if index == 0 {
        return None;
    }
    let before = EventId {
        at: item,
        index: index - 1,
    };
    if judged.is_grounded(before) {
        None
    } else {
        Some(before)
    }
}

/// The first item's event that is held and comes right before its barrier of an instance of a group, if there is one.
fn late_in<A: Allocator>(judged: &Judged<A>, group: u16, number: u32) -> Option<EventId>
    requires group { group < length judged.now.sizes }
    requires stuck { IsStuck judged.now group number }
    ensures { MatchOption result (HaveArrived judged.now group number) (λ d. IsLate judged.now group number d) }
{
    for item in 0..judged.lanes().shape().items(group) {
        if let Some(held) = held_before(judged, ItemId { group, item }, number) {
            return Some(held);
        }
    }
    None
}

/// A held event right before a barrier of the instance to which a held barrier belongs; `None` if the event is no barrier, or if no
/// such event is held.
fn late_arrival<A: Allocator>(judged: &Judged<A>, event: EventId) -> Option<EventId>
    requires { IsHeldEvent judged.now event }
    ensures { MatchOption result ((g k : ℕ) → StandsIn judged.now event g k → HaveArrived judged.now g k) (λ d. (g k : ℕ) × StandsIn judged.now event g k × IsLate judged.now g k d) }
{
    let number = judged.lanes().barrier_number(event)?;
    late_in(judged, event.at.group, number)
}

/// Why an event is held that is the first held one of its item.
pub(crate) fn reason_of<A: Allocator>(judged: &Judged<A>, event: EventId) -> Reason
    requires held { IsHeldEvent judged.now event }
    requires passed { IsPassed judged.now event }
    ensures cause { IsCause judged.now event result }
    ensures leads { LeadsToHeld judged.now result }
{
    // brings what is known of the launch into the proof
    let _lanes = judged.lanes();
    match reason_by_names(judged, event) {
        Some(reason) => reason,
        None => match late_arrival(judged, event) {
            Some(before) => Reason::Barrier(before),
            None => unreachable!(),
        },
    }
}
