//! The sizes of work-groups that come one after another.
//!
//! Invariant: there are at most 65,535 groups, each has at most 1,024 items, and there are at most 67,107,840 items (`limits`). A
//! group that has no items has not come yet.

ghost use Rattle.std.specs.Prelude.{[], ◌≡◌, ◌↔◌, ◌+◌, ◌<◌, ◌≤◌, IfOk, IsTrue, length, slice_index, sum};
ghost use Rattle.gr_model.specs.Groups.{put};
ghost use Rattle.gr_model.specs.Shapes.{HasItem, IsPartOfShape};
ghost use Rattle.gr_model.specs.declared.limits.TheConstants.{MOST_GROUPS as most_groups, MOST_ITEMS as most_items, MOST_ITEMS_OF_A_GROUP as most_items_of_a_group};

use crate::event::ItemId;
use crate::memory::Memory;
use crate::shape::{Shape, total_of};
use std::alloc::{Allocator, Global};
use std::marker::Model;

/// For each work-group of a launch, how many work-items it has; 0 where it has not come yet. Contracts see the list of these numbers.
#[derive(Drop)]
#[derive_where(Debug)]
pub struct GrowingShape<A: Allocator = Global> {
    sizes: Vec<u16, A>,
}

impl<A: Allocator> Model for GrowingShape<A> {
    ghost use Rattle.std.specs.Prelude.{List, ℕ};
    ghost use Rattle.gr_model.specs.Shapes.{IsPartOfShape};

    ghost Value = { List ℕ };

    ghost view = { λ s. s.sizes.items };

    ghost invariant = { λ s. IsPartOfShape s.sizes.items };
}

impl<A: Allocator> GrowingShape<A> {
    /// The shape of a launch before any group has come. It takes no memory.
    pub fn new(alloc: A) -> GrowingShape<A>
        ensures { result ≡ [] }
    {
        GrowingShape {
            sizes: Vec::new(alloc),
        }
    }

    /// The sizes of a shape. All of its groups have come.
    pub fn of(shape: Shape<A>) -> GrowingShape<A>
        ensures { result ≡ shape }
    {
        let Shape { sizes } = shape;
        GrowingShape { sizes }
    }

    /// How many work-groups there are: the greatest that has come, and those below it.
    pub fn groups(&self) -> u16
        ensures count { result ≡ length self.now }
        ensures shape { IsPartOfShape self.now }
    {
        self.sizes.len() as u16
    }

    /// How many work-items a group has: at most `MOST_ITEMS_OF_A_GROUP`, and none where it has not come.
    /// Requires: there is such a group.
    pub fn items(&self, group: u16) -> u16
        requires { group < length self.now }
        ensures size { result ≡ slice_index self.now group }
        ensures shape { IsPartOfShape self.now }
    {
        self.sizes[group as usize]
    }

    /// How many work-items there are in all groups: at most `MOST_ITEMS`.
    pub fn total(&self) -> u32
        ensures total { result ≡ sum self.now }
        ensures shape { IsPartOfShape self.now }
    {
        total_of(&self.sizes)
    }

    /// Whether there is such a work-item.
    pub fn has(&self, item: ItemId) -> bool
        ensures { IsTrue result ↔ HasItem self.now item }
    {
        let size = self.sizes.get(item.group as usize);
        size.is_some_and(|size| item.item < *size)
    }

    /// The sizes after a group with so many work-items has come.
    /// Requires: it has not come yet, and a launch may have it beside the others.
    ///
    /// # Errors
    /// `Memory`: out of memory.
    pub fn with_group(self, group: u16, items: u16) -> Result<GrowingShape<A>, Memory>
        requires group { group < most_groups }
        requires absent { slice_index self group ≡ 0 }
        requires items { items ≤ most_items_of_a_group }
        requires total { sum self + items ≤ most_items }
        ensures { IfOk result (λ s. s ≡ put 0 self group items) }
    {
        let GrowingShape { mut sizes } = self;
        while sizes.len() <= group as usize {
            sizes.push(0)?;
        }
        sizes[group as usize] = items;
        Ok(GrowingShape { sizes })
    }
}
