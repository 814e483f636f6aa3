//! What a step of the sequencer did.

use gr_clocks::access::Access;
use gr_model::event::EventId;
use std::alloc::{Allocator, Global};

/// A step that was made.
#[derive(Drop)]
#[derive_where(Debug)]
pub enum Handled<A: Allocator = Global> {
    /// An event was handled. If it is an access, that is given; a barrier of a divergent instance has none.
    One {
        event: EventId,
        access: Option<Access<A>>,
    },
    /// The barriers of a convergent instance of a group were handled.
    Meet {
        group: u16,
        instance: u32,
    },
}

impl<A: Allocator> Handled<A> {
    /// The group whose events were handled.
    #[inline(always)]
    pub fn group(&self) -> u16 {
        match self {
            Handled::One { event, access: _ } => event.at.group,
            Handled::Meet { group, instance: _ } => *group,
        }
    }
}
