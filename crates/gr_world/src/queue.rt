//! Bounded queues.
//!
//! Invariant: a queue holds at most as many values as it has places, and has memory for that many.

ghost use Rattle.std.specs.Prelude.{◌≡◌, ◌↔◌, ◌∷◌, [], List, IsTrue, IfOk, MatchOption, length};
ghost use Rattle.gr_world.specs.Queues.{HasRoom, empty_queue, leaving, pushed};

use gr_model::memory::Memory;
use std::alloc::{Allocator, Global};
use std::collections::VecDeque;
use std::marker::Model;

/// A bounded queue. All its memory is allocated when it is made. Contracts see the number of its places, and the values that
/// it holds, the front first.
#[derive(Drop)]
#[derive_where(Debug; T)]
pub struct Queue<T, A: Allocator = Global> {
    places: usize,
    items: VecDeque<T, A>,
}

impl<T, A: Allocator> Model for Queue<T, A> {
    ghost use Rattle.std.specs.Prelude.{◌≤◌, length};
    ghost use Rattle.std.specs.VecDeque.{deque_capacity};
    ghost use Rattle.gr_world.specs.Queues.{Bounded};

    ghost Value = { Bounded T };

    ghost view = { λ q. record { places = q.places; items = q.items.items } };

    ghost invariant = { λ q. (length q.items.items ≤ q.places) × (q.places ≤ deque_capacity q.items) };
}

impl<T, A: Allocator> Queue<T, A> {
    /// An empty queue with room for `places` values.
    ///
    /// # Errors
    /// `Memory` if an allocation is refused.
    pub fn new(alloc: A, places: usize) -> Result<Queue<T, A>, Memory>
        ensures { IfOk result (λ q. q ≡ empty_queue places) }
    {
        let items = VecDeque::with_capacity(alloc, places)?;
        Ok(Queue { places, items })
    }

    /// Whether it is empty.
    pub fn is_empty(&self) -> bool
        ensures { IsTrue result ↔ (self.now.items ≡ []) }
    {
        self.items.is_empty()
    }

    /// Whether there is room for one more value.
    pub fn has_room(&self) -> bool
        ensures { IsTrue result ↔ HasRoom self.now }
    {
        self.items.len() < self.places
    }

    /// The value at the front, if there is one.
    pub fn front(&self) -> Option<&T>
        ensures { MatchOption result (self.now.items ≡ []) (λ x. (rest : List T) × (self.now.items ≡ x.now ∷ rest)) }
    {
        self.items.front()
    }

    /// Puts a value at the end.
    /// Requires: `has_room`.
    pub fn push(&mut self, value: T)
        requires { HasRoom self.old }
        ensures { self.new ≡ pushed self.old value }
    {
        self.items.push_back_reserved(value);
    }

    /// Takes the value at the front, if there is one.
    pub fn pop(&mut self) -> Option<T>
        ensures { MatchOption result ((self.old.items ≡ []) × (self.new ≡ self.old)) (λ x. (self.old.items ≡ x ∷ self.new.items) × (self.new ≡ leaving self.old self.new.items)) }
    {
        self.items.pop_front()
    }
}
