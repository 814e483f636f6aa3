//! The lists of a report.

ghost use Rattle.std.specs.Prelude.{◌≡◌};
ghost use Rattle.std.specs.Cmp.Lexicographic.{pointwise, lists_per};

use std::alloc::{Allocator, Global};
use std::marker::Model;

/// A list in a report. Contracts see the list.
#[derive(Drop)]
#[derive_where(Debug; T)]
pub struct Rows<T, A: Allocator = Global> {
    items: Vec<T, A>,
}

impl<T, A: Allocator> Model for Rows<T, A> {
    ghost use Rattle.std.specs.Prelude.{List};

    ghost Value = { List T };

    ghost view = { λ r. r.items.items };
}

impl<T, A: Allocator> Rows<T, A> {
    /// The rows with these elements, in this order.
    pub fn of(items: Vec<T, A>) -> Rows<T, A>
        ensures { result ≡ items.items }
    {
        Rows { items }
    }

    /// The elements, in their order.
    pub fn as_slice(&self) -> &[T]
        ensures { result.now ≡ self.now }
    {
        &self.items
    }
}

impl<T: PartialEq, A: Allocator> PartialEq for Rows<T, A> {
    ghost eq = { λ x y. pointwise T.eq x y };

    ghost laws = { lists_per T.laws };

    fn eq(&self, other: &Self) -> bool {
        self.items == other.items
    }
}
