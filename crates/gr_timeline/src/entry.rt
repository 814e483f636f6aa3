//! An access of a history.

use gr_clocks::clock::Clock;
use gr_model::event::EventId;
use std::alloc::{Allocator, Global};

/// An access, and its clock: it counts the access, and what happens before it in the word's memory.
#[derive(Drop)]
#[derive_where(Debug)]
pub struct Entry<A: Allocator = Global> {
    /// The access.
    pub event: EventId,
    /// Its clock.
    pub clock: Clock<A>,
}
