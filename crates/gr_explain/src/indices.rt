//! The indices of an item's events.
//!
//! Invariant: they are in ascending order.

ghost use Rattle.std.specs.Prelude.{◌≡◌, ◌≤◌, ◌<◌, ◌↔◌, ◌⊎◌, ℕ, [], IsTrue, MatchOption, OnOk};
ghost use Rattle.gr_explain.specs.Seen.{has_index};

use gr_model::memory::Memory;
use std::alloc::{Allocator, Global};
use std::marker::Model;

/// The indices of some events of an item. Contracts see the list of them.
#[derive(Drop)]
#[derive_where(Debug)]
pub(crate) struct Indices<A: Allocator = Global> {
    ascending: Vec<u32, A>,
}

impl<A: Allocator> Model for Indices<A> {
    ghost use Rattle.std.specs.Prelude.{ℕ, List};
    ghost use Rattle.std.specs.List.Sorted.{IsNonDecreasing};

    ghost Value = { List ℕ };

    ghost view = { λ i. i.ascending.items };

    ghost invariant = { λ i. IsNonDecreasing i.ascending.items };
}

impl<A: Allocator> Indices<A> {
    /// No indices.
    pub(crate) fn new(alloc: A) -> Indices<A>
        ensures { result ≡ [] }
    {
        Indices {
            ascending: Vec::new(alloc),
        }
    }

    /// Adds an index. It mostly comes after all others.
    ///
    /// # Errors
    /// `Memory`: out of memory.
    pub(crate) fn add(&mut self, index: u32) -> Result<(), Memory>
        ensures { OnOk result ((n : ℕ) → IsTrue (has_index self.new n) ↔ ((n ≡ index) ⊎ IsTrue (has_index self.old n))) }
    {
        let is_last = self.ascending.last().is_none_or(|last| *last <= index);
        self.ascending.push(index)?;
        if !is_last {
            self.ascending.sort_unstable();
        }
        Ok(())
    }

    /// The least index that is not below a number.
    pub(crate) fn first_from(&self, least: u32) -> Option<u32>
        ensures { MatchOption result ((n : ℕ) → IsTrue (has_index self.now n) → n < least) (λ i. IsTrue (has_index self.now i) × (least ≤ i) × ((n : ℕ) → IsTrue (has_index self.now n) → least ≤ n → i ≤ n)) }
    {
        let indices = self.ascending.as_slice();
        let place = indices.partition_point(|index| *index < least);
        indices.get(place).copied()
    }
}
