//! For each work-item, the events that wait.

ghost use Rattle.std.specs.Prelude.{◌≡◌, ◌-◌, ◌<◌, ◌≤◌, ◌++◌, ◌∷◌, [], IfOk, OnOk, OnErr, drop, length, map, slice_get, slice_index, take};
ghost use Rattle.gr_model.specs.Prelude.{HasItem};
ghost use Rattle.gr_windows.specs.Windows.{AddsItems, Changes, DropsItems, IsEmpty, window_of};

use crate::row::Row;
use gr_model::event::{Event, ItemId};
use gr_model::growing::GrowingShape;
use gr_model::memory::Memory;
use std::alloc::{Allocator, Global};
use std::marker::Model;

/// For each item of a launch, the events that wait. Contracts see for each work-group the lists of its items.
#[derive(Drop)]
#[derive_where(Debug)]
pub struct Windows<A: Allocator = Global> {
    rows: Vec<Row<A>, A>,
}

impl<A: Allocator> Model for Windows<A> {
    ghost use Rattle.gr_windows.specs.Windows.{Table};

    ghost Value = { Table };

    ghost view = { λ w. w.rows.items };
}

impl<A: Allocator + Copy> Windows<A> {
    /// No event waits.
    ///
    /// # Errors
    /// `Memory`: out of memory.
    pub fn new(alloc: A, shape: &GrowingShape<A>) -> Result<Windows<A>, Memory>
        ensures { IfOk result (λ w. IsEmpty shape.now w) }
    {
        let mut rows = Vec::new(alloc);
        for group in 0..shape.groups() {
            rows.push(Row::new(alloc, shape.items(group)))?;
        }
        Ok(Windows { rows })
    }

    /// The events that wait, after a group that had no items gets so many. Groups below it that were missing are added, without items.
    ///
    /// # Errors
    /// `Memory`: out of memory.
    pub fn with_group(self, alloc: A, group: u16, items: u16) -> Result<Windows<A>, Memory>
        requires { slice_index (map length self) group ≡ 0 }
        ensures { IfOk result (λ w. AddsItems self group items w) }
    {
        let added = Row::new(alloc, items);
        let Windows { mut rows } = self;
        while rows.len() <= usize::from(group) {
            rows.push(Row::new(alloc, 0))?;
        }
        rows[usize::from(group)] = added;
        Ok(Windows { rows })
    }
}

impl<A: Allocator> Windows<A> {
    /// The event of an item at a place among those that wait.
    pub fn waiting(&self, item: ItemId, place: u32) -> Option<Event>
        ensures { result ≡ slice_get (window_of self.now item) place }
    {
        self.rows
            .get(usize::from(item.group))?
            .get(item.item, place)
    }

    /// Adds an event of an item after the others.
    ///
    /// # Errors
    /// `Memory`: out of memory. Nothing is then added.
    pub fn push(&mut self, item: ItemId, event: &Event) -> Result<(), Memory>
    where
        A: Copy,
        requires { HasItem (map length self.old) item }
        ensures ok { OnOk result (Changes self.old item (window_of self.old item ++ event.now ∷ []) self.new) }
        ensures err { OnErr result (self.new ≡ self.old) }
    {
        self.rows[usize::from(item.group)].push(item.item, event)
    }

    /// Forgets the first event of an item.
    pub fn pop_first(&mut self, item: ItemId)
        requires { HasItem (map length self.old) item }
        ensures { Changes self.old item (drop 1 (window_of self.old item)) self.new }
    {
        self.rows[usize::from(item.group)].pop_first(item.item);
    }

    /// Forgets the last event of an item.
    pub fn pop_last(&mut self, item: ItemId)
        requires { HasItem (map length self.old) item }
        ensures { Changes self.old item (take (length (window_of self.old item) - 1) (window_of self.old item)) self.new }
    {
        self.rows[usize::from(item.group)].pop_last(item.item);
    }

    /// Forgets the first event of each of so many items of a group.
    pub fn pop_group(&mut self, group: u16, items: u16)
        requires group { group < length self.old }
        requires items { items ≤ slice_index (map length self.old) group }
        ensures { DropsItems self.old group items self.new }
    {
        for item in 0..items {
            self.pop_first(ItemId { group, item });
        }
    }

    /// Frees the memory of a group if none of its events waits. Says whether that is so.
    pub fn free(&mut self, group: u16) -> bool
        ensures { self.new ≡ self.old }
    {
        let place = usize::from(group);
        place < self.rows.len() && self.rows[place].free()
    }
}
