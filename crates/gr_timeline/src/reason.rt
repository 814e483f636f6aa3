//! Why an event is held, as one step of a chain.

ghost use Rattle.std.specs.Prelude.{◌≡◌};
ghost use Rattle.gr_timeline.specs.Chains.{leads_to};

use gr_model::event::{EventId, Name};

/// Why an event is held.
#[derive(Clone, Copy, Debug, PartialEq, Eq)]
pub enum Reason {
    /// It comes after this event, the first of its item that is held.
    Behind(EventId),
    /// It is an acquire that names this release, which is held.
    Release(EventId),
    /// It is a barrier that waits for another one of its instance, and the event right before that one is this one, which is held.
    Barrier(EventId),
    /// It is an acquire, and there is no release of this name.
    Absent(Name),
    /// It is an acquire, and the release of this name is on another word.
    OtherWord(Name),
    /// It is the event of the link at this place of the chain again.
    Circle(usize),
}

/// An event of a chain, and why it is held.
#[derive(Clone, Copy, Debug, PartialEq, Eq)]
pub struct Link {
    /// The event.
    pub event: EventId,
    /// Why it is held.
    pub reason: Reason,
}

impl Reason {
    /// The held event for which an event waits by this reason, or `None` if the reason is the end of a chain.
    pub fn leads_to(self) -> Option<EventId>
        ensures { result ≡ leads_to self }
    {
        match self {
            Reason::Behind(event) | Reason::Release(event) | Reason::Barrier(event) => Some(event),
            Reason::Absent(_) | Reason::OtherWord(_) | Reason::Circle(_) => None,
        }
    }
}
