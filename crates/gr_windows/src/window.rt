//! The events of one work-item that wait, in their order.

ghost use Rattle.std.specs.Prelude.{◌≡◌, ◌-◌, ◌==◌, ◌++◌, ◌∷◌, [], IfOk, OnOk, OnErr, drop, length, slice_get, take};

use gr_model::event::Event;
use gr_model::memory::Memory;
use std::alloc::{Allocator, Global};
use std::collections::VecDeque;
use std::marker::Model;

/// The events of an item that wait. Contracts see their list.
#[derive(Drop)]
#[derive_where(Debug)]
pub(crate) struct Window<A: Allocator = Global> {
    events: VecDeque<Event, A>,
}

impl<A: Allocator> Model for Window<A> {
    ghost use Rattle.std.specs.Prelude.{List};
    ghost use Rattle.gr_model.specs.declared.event.Event.{Event};

    ghost Value = { List Event };

    ghost view = { λ w. w.events.items };
}

impl<A: Allocator + Copy> Window<A> {
    /// No event waits.
    pub(crate) fn new(alloc: A) -> Window<A>
        ensures { result ≡ [] }
    {
        Window {
            events: VecDeque::new(alloc),
        }
    }
}

impl<A: Allocator> Window<A> {
    /// The event at a place among those that wait.
    pub(crate) fn get(&self, place: u32) -> Option<Event>
        ensures { result ≡ slice_get self.now place }
    {
        self.events.get(place as usize).copied()
    }

    /// Adds an event after the others. Says whether it is the only one.
    ///
    /// # Errors
    /// `Memory`: out of memory. Nothing is then added.
    pub(crate) fn push(&mut self, event: &Event) -> Result<bool, Memory>
        ensures ok { OnOk result (self.new ≡ self.old ++ event.now ∷ []) }
        ensures only { IfOk result (λ only. only ≡ (length self.old == 0)) }
        ensures err { OnErr result (self.new ≡ self.old) }
    {
        self.events.reserve(1)?;
        let only = self.events.is_empty();
        self.events.push_back_reserved(*event);
        Ok(only)
    }

    /// Forgets the first event. Says whether it was the only one.
    pub(crate) fn pop_first(&mut self) -> bool
        ensures rest { self.new ≡ drop 1 self.old }
        ensures only { result ≡ (length self.old == 1) }
    {
        let only = self.events.len() == 1;
        let _ = self.events.pop_front();
        only
    }

    /// Forgets the last event. Says whether it was the only one.
    pub(crate) fn pop_last(&mut self) -> bool
        ensures rest { self.new ≡ take (length self.old - 1) self.old }
        ensures only { result ≡ (length self.old == 1) }
    {
        let only = self.events.len() == 1;
        let _ = self.events.pop_back();
        only
    }
}
