//! The events of the work-items of one group that wait.
//!
//! Invariant: `busy` is the number of items with events that wait. Where it is 0 there may be no windows, since no item then has an event
//! that waits.

ghost use Rattle.std.specs.Prelude.{◌≡◌, ◌-◌, ◌<◌, ◌++◌, ◌∷◌, [], IfOk, OnOk, OnErr, drop, length, replicate, slice_get, slice_index_or, slice_set, take};
ghost use Rattle.gr_windows.specs.Rows.{begun};

use crate::window::Window;
use gr_model::event::Event;
use gr_model::memory::Memory;
use std::alloc::{Allocator, Global};
use std::marker::Model;

/// For each item of a group, the events that wait. Contracts see their lists.
#[derive(Drop)]
#[derive_where(Debug)]
pub(crate) struct Row<A: Allocator = Global> {
    /// How many items the group has.
    size: u16,
    /// How many items have events that wait.
    busy: u16,
    /// The window of each item, or none.
    windows: Vec<Window<A>, A>,
}

impl<A: Allocator> Model for Row<A> {
    ghost use Rattle.std.specs.Prelude.{List};
    ghost use Rattle.gr_model.specs.declared.event.Event.{Event};
    ghost use Rattle.gr_windows.specs.Rows.{IsRowKept, padded};

    ghost Value = { List (List Event) };

    ghost view = { λ r. padded r.size r.windows.items };

    ghost invariant = { λ r. IsRowKept r.size r.busy r.windows.items };
}

/// The windows of so many items. No event waits.
fn windows_of<A: Allocator + Copy>(alloc: A, items: u16) -> Result<Vec<Window<A>, A>, Memory>
    ensures { IfOk result (λ ws. ws.items ≡ replicate items []) }
{
    let mut windows = Vec::with_capacity(alloc, usize::from(items))?;
    for _item in 0..items {
        windows.push(Window::new(alloc))?;
    }
    Ok(windows)
}

/// Makes the windows of so many items, where there are none.
fn begin<A: Allocator + Copy>(windows: &mut Vec<Window<A>, A>, items: u16) -> Result<(), Memory>
    ensures ok { OnOk result (windows.new.items ≡ begun items windows.old.items) }
    ensures err { OnErr result (windows.new.items ≡ windows.old.items) }
{
    if windows.is_empty() {
        *windows = windows_of(*windows.allocator(), items)?;
    }
    Ok(())
}

impl<A: Allocator + Copy> Row<A> {
    /// The row of a group with so many items. No event waits. It takes no memory.
    pub(crate) fn new(alloc: A, items: u16) -> Row<A>
        ensures { result ≡ replicate items [] }
    {
        Row {
            size: items,
            busy: 0,
            windows: Vec::new(alloc),
        }
    }

    /// Adds an event of an item after the others.
    ///
    /// # Errors
    /// `Memory`: out of memory. Nothing is then added.
    pub(crate) fn push(&mut self, item: u16, event: &Event) -> Result<(), Memory>
        requires { item < length self.old }
        ensures ok { OnOk result (self.new ≡ slice_set self.old item (slice_index_or self.old item [] ++ event.now ∷ [])) }
        ensures err { OnErr result (self.new ≡ self.old) }
    {
        begin(&mut self.windows, self.size)?;
        let only = self.windows[usize::from(item)].push(event)?;
        self.busy += u16::from(only);
        Ok(())
    }
}

impl<A: Allocator> Row<A> {
    /// The event of an item at a place among those that wait.
    pub(crate) fn get(&self, item: u16, place: u32) -> Option<Event>
        ensures { result ≡ slice_get (slice_index_or self.now item []) place }
    {
        self.windows.get(usize::from(item))?.get(place)
    }

    /// Forgets the first event of an item.
    pub(crate) fn pop_first(&mut self, item: u16)
        requires { item < length self.old }
        ensures { self.new ≡ slice_set self.old item (drop 1 (slice_index_or self.old item [])) }
    {
        if let Some(window) = self.windows.get_mut(usize::from(item)) {
            self.busy -= u16::from(window.pop_first());
        }
    }

    /// Forgets the last event of an item.
    pub(crate) fn pop_last(&mut self, item: u16)
        requires { item < length self.old }
        ensures { self.new ≡ slice_set self.old item (take (length (slice_index_or self.old item []) - 1) (slice_index_or self.old item [])) }
    {
        if let Some(window) = self.windows.get_mut(usize::from(item)) {
            self.busy -= u16::from(window.pop_last());
        }
    }

    /// Frees the windows if no event waits. Says whether that is so.
    pub(crate) fn free(&mut self) -> bool
        ensures { self.new ≡ self.old }
    {
        if self.busy != 0 {
            return false;
        }
        self.windows.clear();
        self.windows.shrink_to_fit();
        true
    }
}
