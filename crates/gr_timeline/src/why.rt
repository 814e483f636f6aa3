//! Why an event of a launch is held, if it is.

ghost use Rattle.std.specs.Prelude.{◌≡◌, IfOk};
ghost use Rattle.gr_timeline.specs.Why.{IsWhy, answer_of, says_held};

use crate::judged::Judged;
use crate::reason::Link;
use crate::walk::chain_of;
use gr_model::event::EventId;
use gr_model::memory::Memory;
use gr_model::traces::Traces;
use std::alloc::{Allocator, Global};

/// What is answered about an event.
#[derive(Drop)]
#[derive_where(Debug)]
pub enum WhyHeld<A: Allocator = Global> {
    /// The launch has no such event.
    NoRecord,
    /// The event is judged.
    Judged,
    /// The event is held: a chain of held events from it on, each with the reason that leads to the next. The last reason
    /// leads to none.
    Held(Vec<Link, A>),
}

impl<A: Allocator> WhyHeld<A> {
    /// Whether the answer is that the event is held.
    pub fn is_held(&self) -> bool
        ensures { result ≡ says_held (answer_of self.now) }
    {
        matches!(self, WhyHeld::Held(_))
    }
}

/// Why an event of a launch is held, if it is, in a launch whose grounded events are known.
#[tactic(auto, using(crate::proofs::WhyLemmas::grounded_there))]
fn why_in<A: Allocator + Copy>(
    alloc: A,
    judged: &Judged<A>,
    event: EventId,
) -> Result<WhyHeld<A>, Memory>
    ensures { IfOk result (λ why. IsWhy judged.now event (answer_of why)) }
{
    if judged.is_grounded(event) {
        return Ok(WhyHeld::Judged);
    }
    match judged.record_of(event) {
        None => Ok(WhyHeld::NoRecord),
        Some(_) => Ok(WhyHeld::Held(chain_of(alloc, judged, event)?)),
    }
}

/// Why an event of a launch is held, or that it is judged, or that it is not there.
///
/// It handles all events of the launch once, and so takes time and memory that grow with them.
///
/// # Errors
/// `Memory`: out of memory.
pub fn why_held<A: Allocator + Copy>(
    alloc: A,
    traces: &Traces<A>,
    event: EventId,
) -> Result<WhyHeld<A>, Memory>
    ensures { IfOk result (λ why. IsWhy traces.now event (answer_of why)) }
{
    let judged = Judged::of(alloc, traces)?;
    why_in(alloc, &judged, event)
}
