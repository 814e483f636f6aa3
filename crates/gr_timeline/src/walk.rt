//! The walk from a held event along its chain.
//!
//! The chain goes from an event to the first held one of its item, from there to an event for which that waits, and so on.
//! If it comes to an item for the second time, it comes to the same event, and the chain ends in a circle.

ghost use Rattle.std.specs.Prelude.{◌≡◌, ◌<◌, ◌++◌, ◌∷◌, [], ℕ, IfOk, IfSome, OnOk, Some, length};
ghost use Rattle.gr_clocks.specs.Counts.{Counts};
ghost use Rattle.gr_timeline.specs.Chains.{IsChain, IsChainTo, IsReason, LeadsToHeld, event_of, leads_to};
ghost use Rattle.gr_timeline.specs.Waiting.{IsFirstHeld, IsHeldEvent};
ghost use Rattle.gr_timeline.specs.Walks.{AreVisited, unvisited};

use crate::judged::Judged;
use crate::reason::{Link, Reason};
use crate::reasons::reason_of;
use gr_clocks::tally::Tally;
use gr_model::event::EventId;
use gr_model::memory::Memory;
use std::alloc::Allocator;

/// The place of the link that has an event.
fn place_in(links: &[Link], event: EventId) -> usize
    requires { (k : ℕ) × (event_of links.now k ≡ Some event) }
    ensures { event_of links.now result ≡ Some event }
{
    for place in 0..links.len() {
        if links[place].event == event {
            return place;
        }
    }
    unreachable!()
}

/// Goes from a held event to the first held one of its item.
fn go_to_first<A: Allocator, B: Allocator>(
    judged: &Judged<A>,
    links: &mut Vec<Link, B>,
    event: EventId,
) -> Result<EventId, Memory>
    requires held { IsHeldEvent judged.now event }
    ensures held { IfOk result (λ first. IsHeldEvent judged.now first × IsFirstHeld judged.now first) }
    ensures chain { IfOk result (λ first. (e : EventId) → IsChainTo judged.now e links.old.items (Some event) → IsChainTo judged.now e links.new.items (Some first)) }
    ensures visited { OnOk result ((visited : Counts) → AreVisited judged.now links.old.items visited → AreVisited judged.now links.new.items visited) }
{
    let first = judged.first_held(event.at);
    if first.index < event.index {
        let reason = Reason::Behind(first);
        links.push(Link { event, reason })?;
        Ok(first)
    } else {
        Ok(event)
    }
}

/// Why the first held event of an item is held, or that the walk was at it before. Marks the item as visited.
fn visit<A: Allocator>(
    judged: &Judged<A>,
    links: &[Link],
    visited: &mut Tally<A>,
    event: EventId,
) -> Reason
    requires held { IsHeldEvent judged.now event }
    requires first { IsFirstHeld judged.now event }
    requires visited { AreVisited judged.now links.now visited.old }
    ensures reason { IsReason judged.now links.now (length links.now) event result }
    ensures leads { LeadsToHeld judged.now result }
    ensures visited { AreVisited judged.now (links.now ++ (record { event = event; reason = result }) ∷ []) visited.new }
    ensures fewer { IfSome (leads_to result) (λ d. unvisited visited.new judged.now.sizes < unvisited visited.old judged.now.sizes) }
{
    // brings what is known of the launch into the proof
    let _lanes = judged.lanes();
    if visited.covers(event.at, 0) {
        return Reason::Circle(place_in(links, event));
    }
    visited.raise(event.at);
    reason_of(judged, event)
}

/// Goes from the first held event of an item to one for which it waits, if its reason leads to one.
fn go_on<A: Allocator, B: Allocator>(
    judged: &Judged<A>,
    links: &mut Vec<Link, B>,
    visited: &mut Tally<A>,
    event: EventId,
) -> Result<Option<EventId>, Memory>
    requires held { IsHeldEvent judged.now event }
    requires first { IsFirstHeld judged.now event }
    requires visited { AreVisited judged.now links.old.items visited.old }
    ensures held { IfOk result (λ next. IfSome next (IsHeldEvent judged.now)) }
    ensures chain { IfOk result (λ next. (e : EventId) → IsChainTo judged.now e links.old.items (Some event) → IsChainTo judged.now e links.new.items next) }
    ensures visited { OnOk result (AreVisited judged.now links.new.items visited.new) }
    ensures fewer { IfOk result (λ next. IfSome next (λ d. unvisited visited.new judged.now.sizes < unvisited visited.old judged.now.sizes)) }
{
    let reason = visit(judged, links, visited, event);
    links.push(Link { event, reason })?;
    Ok(reason.leads_to())
}

/// Follows the chain from a held event to its end, and puts its links into a list that has none.
fn follow<A: Allocator, B: Allocator>(
    judged: &Judged<A>,
    links: &mut Vec<Link, B>,
    visited: &mut Tally<A>,
    event: EventId,
) -> Result<(), Memory>
    requires held { IsHeldEvent judged.now event }
    requires none { links.old.items ≡ [] }
    requires visited { AreVisited judged.now [] visited.old }
    ensures { OnOk result (IsChain judged.now event links.new.items) }
{
    let mut next = Some(event);
    while let Some(held) = next {
        let first = go_to_first(judged, links, held)?;
        next = go_on(judged, links, visited, first)?;
    }
    Ok(())
}

/// The chain from a held event.
///
/// It takes time and memory that grow with the work-items of the launch.
pub(crate) fn chain_of<A: Allocator + Copy>(
    alloc: A,
    judged: &Judged<A>,
    event: EventId,
) -> Result<Vec<Link, A>, Memory>
    requires held { IsHeldEvent judged.now event }
    ensures { IfOk result (λ links. IsChain judged.now event links.items) }
{
    let Ok(mut visited) = Tally::new(alloc, judged.lanes().shape()) else {
        return Err(Memory);
    };
    let mut links = Vec::new(alloc);
    follow(judged, &mut links, &mut visited, event)?;
    Ok(links)
}
