//! Tags of events. A tag is a number, made from the event's place in a program, say.

ghost use Rattle.std.specs.Prelude.{◌≡◌, ℕ};
ghost use Rattle.gr_model.specs.declared.event.EventId.{EventId as AnyEvent};

use gr_model::event::EventId;

/// Gives each event its tag.
pub trait Tags {
    // the tag of each event
    ghost tag_of: { Self → AnyEvent → ℕ };

    /// The tag of an event.
    fn tag(&self, event: EventId) -> u128
        ensures { result ≡ tag_of self.now event };
}
