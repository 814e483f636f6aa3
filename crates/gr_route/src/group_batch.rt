//! Events of one work-group that go through an intake queue in one step.

ghost use Rattle.std.specs.Prelude.{◌≡◌};
ghost use Rattle.gr_route.specs.Batches.{sent_by};

use crate::batch::Batch;
use gr_model::event::Event;
use std::alloc::{Allocator, Global};
use std::marker::Model;

/// Events of one work-group that go through an intake queue in one step. Contracts see the list of them, each with the group.
#[derive(Drop)]
pub struct GroupBatch<A: Allocator = Global> {
    group: u16,
    events: Batch<Event, A>,
}

impl<A: Allocator> Model for GroupBatch<A> {
    ghost use Rattle.std.specs.Prelude.{List};
    ghost use Rattle.gr_model.specs.declared.event.Sent.{Sent};
    ghost use Rattle.gr_route.specs.Batches.{sent_by};

    ghost Value = { List Sent };

    ghost view = { λ b. sent_by b.group b.events };
}

impl<A: Allocator> GroupBatch<A> {
    /// These events of a group.
    pub(crate) fn new(group: u16, events: Batch<Event, A>) -> GroupBatch<A>
        ensures { result ≡ sent_by group events }
    {
        GroupBatch { group, events }
    }

    /// The group, and its events.
    pub fn into_events(self) -> (u16, Batch<Event, A>)
        ensures { self ≡ sent_by result.0 result.1 }
    {
        (self.group, self.events)
    }
}
