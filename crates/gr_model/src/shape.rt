//! How many work-items each work-group of a launch has.
//!
//! Invariant: there are 1 to 65,535 groups, each has 1 to 1,024 items, and there are at most 67,107,840 items (`limits`).

ghost use Rattle.std.specs.Prelude.{◌≡◌, ◌↔◌, ◌+◌, ◌<◌, ◌≤◌, IsTrue, IsOk, IfOk, IfErr, MatchOption, length, slice_index, sum, All, take};
ghost use Rattle.gr_model.specs.Shapes.{IsShape, IsShapeWithin, IsSizeWithin, IsSmallShape, HasItem, IsFirstBadSize, IsFaultWithin, IsShapeFault, IsSmallShapeFault};

use crate::event::ItemId;
use crate::limits::{
    FEW_GROUPS, FEW_ITEMS_OF_A_GROUP, MOST_GROUPS, MOST_ITEMS, MOST_ITEMS_OF_A_GROUP,
};
use crate::memory::Memory;
use std::alloc::{Allocator, Global};
use std::marker::Model;
use thiserror::Error;

/// Why sizes are no shape: the first cause that is there.
#[derive(Clone, Copy, Debug, PartialEq, Eq, Error)]
pub enum ShapeError {
    /// There are no groups.
    #[error("no groups")]
    NoGroups,
    /// There are too many groups.
    #[error("too many groups")]
    TooManyGroups,
    /// The least group that has no items, or too many.
    #[error("bad items in group {0}")]
    BadItems(u16),
    /// There are more than `MOST_ITEMS` work-items in all.
    #[error("too many items")]
    TooManyItems,
}

/// How many work-items each work-group of a launch has. Contracts see the list of these numbers.
#[derive(Drop)]
#[derive_where(Debug)]
pub struct Shape<A: Allocator = Global> {
    pub(crate) sizes: Vec<u16, A>,
}

impl<A: Allocator> Model for Shape<A> {
    ghost use Rattle.std.specs.Prelude.{List, ℕ};
    ghost use Rattle.gr_model.specs.Shapes.{IsShape};

    ghost Value = { List ℕ };

    ghost view = { λ s. s.sizes.items };

    ghost invariant = { λ s. IsShape s.sizes.items };
}

/// The first group that has no items or more than so many.
fn bad_group(sizes: &[u16], most: u16) -> Option<usize>
    ensures { MatchOption result (All (IsSizeWithin most) sizes.now) (λ g. IsFirstBadSize most sizes.now g) }
{
    sizes.iter().position(|size| *size == 0 || *size > most)
}

/// The sum of the sizes.
/// Requires: there are at most `MOST_GROUPS` sizes, each at most `MOST_ITEMS_OF_A_GROUP`.
pub(crate) fn total_of(sizes: &[u16]) -> u32
    requires few { length sizes.now ≤ MOST_GROUPS }
    requires small { All (λ n. n ≤ MOST_ITEMS_OF_A_GROUP) sizes.now }
    ensures { result ≡ sum sizes.now }
{
    let mut total: u32 = 0;
    for size in sizes {
        total += u32::from(*size);
    }
    total
}

/// Why the sizes are no shape of at most so many groups, each of at most so many items, or `None` where they are one.
fn fault_of(sizes: &[u16], most_groups: usize, most_items: u16) -> Option<ShapeError>
    requires groups { most_groups ≤ MOST_GROUPS }
    requires items { most_items ≤ MOST_ITEMS_OF_A_GROUP }
    ensures { MatchOption result (IsShapeWithin most_groups most_items sizes.now) (λ e. IsFaultWithin most_groups most_items sizes.now e) }
{
    if sizes.is_empty() {
        return Some(ShapeError::NoGroups);
    }
    if sizes.len() > most_groups {
        return Some(ShapeError::TooManyGroups);
    }
    if let Some(g) = bad_group(sizes, most_items) {
        return Some(ShapeError::BadItems(g as u16));
    }
    (total_of(sizes) > MOST_ITEMS).then_some(ShapeError::TooManyItems)
}

impl<A: Allocator> Shape<A> {
    /// The shape of a launch whose group g has `sizes[g]` work-items, where its streams are of versions 1 and 2.
    ///
    /// # Errors
    /// The first of these that is there: `NoGroups`; `TooManyGroups` above `FEW_GROUPS`; `BadItems` with the least group
    /// that has no items, or more than `FEW_ITEMS_OF_A_GROUP`; `TooManyItems`, which never comes.
    ///
    /// # Example
    /// ```rust
    /// let shape = Shape::new(vec![in rt.alloc(); 3, 256]?).ok().ok_or("shape")?;
    /// assert_eq!(rt; shape.groups(), 2);
    /// assert_eq!(rt; shape.items(1), 256);
    /// assert_eq!(rt; shape.total(), 259);
    /// assert_eq!(rt; Shape::new(Vec::new(rt.alloc())).err(), Some(ShapeError::NoGroups));
    /// ```
    pub fn new(sizes: Vec<u16, A>) -> Result<Shape<A>, ShapeError>
        ensures accepted { IsOk result ↔ IsSmallShape sizes.items }
        ensures sizes { IfOk result (λ s. s ≡ sizes.items) }
        ensures refused { IfErr result (λ e. IsSmallShapeFault sizes.items e) }
    {
        match fault_of(&sizes, FEW_GROUPS, FEW_ITEMS_OF_A_GROUP) {
            Some(fault) => Err(fault),
            None => Ok(Shape { sizes }),
        }
    }

    /// The shape of a whole launch, whose group g has `sizes[g]` work-items.
    ///
    /// # Errors
    /// The first of these that is there: `NoGroups`; `TooManyGroups` above `MOST_GROUPS`; `BadItems` with the least group
    /// that has no items, or more than `MOST_ITEMS_OF_A_GROUP`; `TooManyItems`, which never comes.
    pub fn of_launch(sizes: Vec<u16, A>) -> Result<Shape<A>, ShapeError>
        ensures accepted { IsOk result ↔ IsShape sizes.items }
        ensures sizes { IfOk result (λ s. s ≡ sizes.items) }
        ensures refused { IfErr result (λ e. IsShapeFault sizes.items e) }
    {
        match fault_of(&sizes, MOST_GROUPS, MOST_ITEMS_OF_A_GROUP) {
            Some(fault) => Err(fault),
            None => Ok(Shape { sizes }),
        }
    }

    /// How many work-groups there are: 1 to `MOST_GROUPS`.
    pub fn groups(&self) -> u16
        ensures count { result ≡ length self.now }
        ensures shape { IsShape self.now }
    {
        self.sizes.len() as u16
    }

    /// How many work-items a group has: 1 to `MOST_ITEMS_OF_A_GROUP`.
    /// Requires: there is such a group.
    pub fn items(&self, group: u16) -> u16
        requires { group < length self.now }
        ensures size { result ≡ slice_index self.now group }
        ensures shape { IsShape self.now }
    {
        self.sizes[group as usize]
    }

    /// How many work-items there are in all groups: 1 to `MOST_ITEMS`.
    pub fn total(&self) -> u32
        ensures total { result ≡ sum self.now }
        ensures shape { IsShape self.now }
    {
        total_of(&self.sizes)
    }

    /// Whether there is such a work-item.
    pub fn has(&self, item: ItemId) -> bool
        ensures { IsTrue result ↔ HasItem self.now item }
    {
        let size = self.sizes.get(item.group as usize);
        size.is_some_and(|size| item.item < *size)
    }

    /// A copy of this shape.
    ///
    /// # Errors
    /// `Memory` if an allocation is refused.
    pub fn copy(&self) -> Result<Shape<A>, Memory>
    where
        A: Clone,
        ensures { IfOk result (λ s. s ≡ self.now) }
    {
        let sizes = self.sizes.clone()?;
        Ok(Shape { sizes })
    }
}
