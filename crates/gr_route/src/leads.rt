//! How far the senders of a queue are ahead of the sequencer. A sender's thread may sleep if many of its events are still to be
//! taken, so that they don't fill the memory. It is a hint: no contract mentions it.

use gr_model::limits::FEW_GROUPS;
use gr_model::memory::Memory;
use std::alloc::{Allocator, Global};
use std::sync::atomic::{AtomicU32, Ordering};

/// For each of the first groups, how many events were popped and are still to be taken.
#[derive(Drop)]
pub struct Leads<A: Allocator = Global> {
    events: Vec<AtomicU32, A>,
}

impl<A: Allocator> Leads<A> {
    /// Nothing was popped.
    ///
    /// # Errors
    /// `Memory` if an allocation is refused.
    pub(crate) fn new(alloc: A) -> Result<Leads<A>, Memory> {
        let mut events = Vec::with_capacity(alloc, FEW_GROUPS)?;
        for _ in 0..FEW_GROUPS {
            events.push(AtomicU32::new(0))?;
        }
        Ok(Leads { events })
    }

    /// Notes that so many events of the group are still to be taken.
    pub fn note(&self, group: usize, events: usize) {
        if let Some(lead) = self.events.get(group) {
            lead.store(events.min(u32::MAX as usize) as u32, Ordering::Relaxed);
        }
    }

    /// How many events of the group are still to be taken: 0 if it is not one of the first groups.
    pub fn of(&self, group: u16) -> u32 {
        match self.events.get(usize::from(group)) {
            Some(lead) => lead.load(Ordering::Relaxed),
            None => 0,
        }
    }
}
