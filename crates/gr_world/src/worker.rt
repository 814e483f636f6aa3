//! A worker: the accesses in its queue, and the accesses that it received. The latter exist only in proofs.
//!
//! Invariant: its shadows represent the accesses that it received.

ghost use Rattle.std.specs.Prelude.{◌≡◌, ◌↔◌, [], IsTrue, IfOk, OnErr};
ghost use Rattle.gr_model.specs.Prelude.{Lists, WordBelow};
ghost use Rattle.gr_shadow.specs.Clashes.{IsHitIn, clocked};
ghost use Rattle.gr_world.specs.Queues.{HasRoom, Receives, no_work, queueing};

use crate::queue::Queue;
use gr_clocks::access::Access;
use gr_model::event::Word;
use gr_model::history::History;
use gr_model::memory::Memory;
use gr_shadow::shadows::Shadows;
use std::alloc::{Allocator, Global};
use std::marker::Model;

/// A worker of a run. Contracts see its queue, and the accesses that it received.
#[derive(Drop)]
#[derive_where(Debug)]
pub struct Worker<A: Allocator = Global> {
    queue: Queue<Access<A>, A>,
    received: History<Access<A>>,
    shadows: Shadows<A>,
}

impl<A: Allocator> Model for Worker<A> {
    ghost use Rattle.gr_shadow.specs.StandsFor.{StandsFor};
    ghost use Rattle.gr_world.specs.Queues.{Work, all_clocked, work_of};

    ghost Value = { Work };

    ghost view = { λ w. work_of w.queue w.received };

    ghost invariant = { λ w. StandsFor (all_clocked w.received) w.shadows };
}

impl<A: Allocator + Copy> Worker<A> {
    /// A worker that received nothing. Its queue has room for `places` accesses.
    ///
    /// # Errors
    /// `Memory` if an allocation is refused.
    pub fn new(alloc: A, places: usize) -> Result<Worker<A>, Memory>
        ensures { IfOk result (λ w. w ≡ no_work places) }
    {
        Ok(Worker {
            queue: Queue::new(alloc, places)?,
            received: History::new(),
            shadows: Shadows::new(alloc),
        })
    }

    /// Receives the access at the front of its queue, if there is one. Returns whether there was one.
    ///
    /// # Errors
    /// `Memory` if an allocation is refused. The worker is then unchanged.
    pub fn receive(&mut self) -> Result<bool, Memory>
        ensures ok { IfOk result (λ some. Receives self.old some self.new) }
        ensures err { OnErr result (¬ (self.old.queue.items ≡ [])) }
        ensures unchanged { OnErr result (self.new ≡ self.old) }
    {
        let Some(access) = self.queue.front() else {
            return Ok(false);
        };
        self.shadows.apply(access)?;
        self.received.push(&self.queue.pop().unwrap());
        Ok(true)
    }

    /// The words that are hit in the accesses that it received, in ascending order, each once.
    ///
    /// # Errors
    /// `Memory` if an allocation is refused.
    pub fn racy(&self) -> Result<Vec<Word, A>, Memory>
        ensures { IfOk result (λ words. Lists WordBelow (IsHitIn self.now.received) words.items) }
    {
        self.shadows.racy()
    }
}

impl<A: Allocator> Worker<A> {
    /// Whether its queue is empty.
    #[tactic(auto, using(crate::proofs::Changes::none_clocked))]
    pub fn is_idle(&self) -> bool
        ensures { IsTrue result ↔ (self.now.queue.items ≡ []) }
    {
        self.queue.is_empty()
    }

    /// Whether there is room in its queue.
    pub fn has_room(&self) -> bool
        ensures { IsTrue result ↔ HasRoom self.now.queue }
    {
        self.queue.has_room()
    }

    /// Puts an access at the end of its queue.
    /// Requires: `has_room`.
    #[tactic(auto, using(crate::proofs::Changes::mapped))]
    pub fn push(&mut self, access: Access<A>)
        requires { HasRoom self.old.queue }
        ensures { self.new ≡ queueing self.old (clocked access) }
    {
        self.queue.push(access);
    }
}
