//! Lists that held what went through a queue, for those who push: memory that was just used is faster than new memory.

use crossbeam_queue::ArrayQueue;
use gr_model::memory::Memory;
use std::alloc::{Allocator, Global};
use std::sync::Wait;

/// How many lists are kept at most.
const MOST_SPARES: usize = 64;

/// Lists to be filled again.
#[derive(Drop)]
pub struct Spares<T, A: Allocator = Global> {
    lists: ArrayQueue<Vec<T, A>, A>,
}

impl<T: Drop, A: Allocator + Copy> Spares<T, A> {
    /// No list is kept yet.
    ///
    /// # Errors
    /// `Memory` if an allocation is refused.
    pub(crate) fn new(alloc: A) -> Result<Spares<T, A>, Memory> {
        let lists = ArrayQueue::new(alloc, MOST_SPARES)?;
        Ok(Spares { lists })
    }
}

impl<T: Drop, A: Allocator> Spares<T, A> {
    /// Keeps a list, unless enough are kept.
    pub fn put<R: Wait>(&self, rt: &R, list: Vec<T, A>) {
        let _ = self.lists.push(rt, list);
    }

    /// One of the lists that are kept, if there is one.
    pub fn take<R: Wait>(&self, rt: &R) -> Option<Vec<T, A>> {
        self.lists.pop(rt)
    }
}
