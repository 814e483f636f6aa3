//! The accesses on their way to the workers: those that the sequencer's steps give wait here until their worker's queue has room.
//!
//! Invariant: there is a way to each worker that a run may have.

ghost use Rattle.std.specs.Prelude.{◌≡◌, ◌≢◌, ◌++◌, ◌∷◌, [], All, IfOk, IsTrue, List, OnOk, length};
ghost use Rattle.gr_clocks.specs.ClockedAccess.{ClockedAccess};
ghost use Rattle.gr_shadow.specs.Lent.{lent_clocked};
ghost use Rattle.gr_model.specs.Prelude.{worker_number};
ghost use Rattle.gr_sequencer_thread.specs.Feeds.{AreOpen, AreSplit, given_of, works_of};

use crate::outlet::Outlet;
use crate::way::Way;
use gr_model::config::{Config, worker_of};
use gr_model::event::Word;
use gr_model::limits::MOST_WORKERS;
use gr_model::memory::Memory;
use gr_shadow::lent::LentAccess;
use gr_taking::keeper::Keeper;
use std::alloc::{Allocator, Global};
use std::marker::Model;
use std::snapshot::Snapshot;
use std::sync::Wait;

/// Accesses on their way to the workers. Contracts see for each worker the list of them.
#[derive(Drop)]
pub(crate) struct OnWay<A: Allocator = Global> {
    alloc: A,
    ways: Vec<Way<A>, A>,
    // How many are on their way.
    count: usize,
}

impl<A: Allocator> Model for OnWay<A> {
    ghost use Rattle.std.specs.Prelude.{◌≡◌, List, length};
    ghost use Rattle.gr_clocks.specs.ClockedAccess.{ClockedAccess};
    ghost use Rattle.gr_model.specs.declared.limits.TheConstants.{MOST_WORKERS};
    ghost use Rattle.gr_sequencer_thread.specs.Feeds.{accesses_on_way};

    ghost Value = { List (List ClockedAccess) };

    ghost view = { λ w. accesses_on_way w.ways.items };

    ghost invariant = { λ w. length w.ways.items ≡ MOST_WORKERS };
}

/// The worker of a word. With a number of workers that is known here no division is needed.
#[inline(always)]
fn way_of(word: &Word, workers: u16) -> u16
    requires { workers ≢ 0 }
    ensures { result ≡ worker_number word.now workers }
{
    match workers {
        1 => worker_of(word, 1),
        2 => worker_of(word, 2),
        4 => worker_of(word, 4),
        8 => worker_of(word, 8),
        _ => worker_of(word, workers),
    }
}

impl<A: Allocator + Copy> OnWay<A> {
    /// No access is on its way.
    pub(crate) fn new(alloc: A) -> Result<OnWay<A>, Memory>
        ensures { IfOk result (λ w. All (λ l. l ≡ []) w) }
    {
        let mut ways = Vec::new(alloc);
        for _ in 0..MOST_WORKERS {
            ways.push(Way::new(alloc))?;
        }
        Ok(OnWay {
            alloc,
            ways,
            count: 0,
        })
    }
}

impl<A: Allocator> OnWay<A> {
    /// How many accesses are on their way.
    pub(crate) fn len(&self) -> usize {
        self.count
    }

    /// Whether no access is on its way.
    pub(crate) fn is_empty(&self) -> bool
        ensures { IsTrue result → All (λ l. l ≡ []) self.now }
    {
        for worker in 0..self.ways.len() {
            if !self.ways[worker].is_empty() {
                return false;
            }
        }
        true
    }

    /// Passes the accesses on, as far as there is room for them. Those that wait for more are passed on only if `all` is true.
    /// Gives whether one was passed on.
    pub(crate) fn pass<R: Wait>(
        &mut self,
        rt: &R,
        config: Config,
        outlets: &mut Vec<Outlet<A>, A>,
        all: bool,
    ) -> bool
        requires workers { length outlets.old.items ≡ config.workers }
        requires open { AreOpen outlets.old.items }
        ensures split { (accesses : List ClockedAccess) → AreSplit config.workers (given_of outlets.old.items) accesses self.old → AreSplit config.workers (given_of outlets.new.items) accesses self.new }
        ensures queues { works_of outlets.new.items ≡ works_of outlets.old.items }
        ensures open { AreOpen outlets.new.items }
    {
        let mut passed: usize = 0;
        for worker in 0..outlets.len() {
            let count = self.ways[worker].pass_all(rt, &mut outlets[worker], all);
            passed = passed.saturating_add(count);
        }
        self.count = self.count.saturating_sub(passed);
        passed > 0
    }
}

/// Puts each access on its way. It knows the configuration, and what was pushed to the outlets so far.
#[derive(Drop)]
pub(crate) struct Passing<A: Allocator = Global> {
    pub(crate) config: Config,
    pub(crate) outlets: Snapshot<Vec<Outlet<A>, A>>,
}

impl<A: Allocator + Copy> Keeper<A> for Passing<A> {
    type Kept = OnWay<A>;

    ghost stands = { λ keeper accesses on_way. AreSplit keeper.config.workers (given_of keeper.outlets.value.items) accesses on_way };

    #[inline(always)]
    fn add(&self, kept: &mut OnWay<A>, access: &LentAccess<'_, A>) -> Result<(), Memory>
        ensures { OnOk result ((accesses : List ClockedAccess) → AreSplit self.now.config.workers (given_of self.now.outlets.value.items) accesses kept.old → AreSplit self.now.config.workers (given_of self.now.outlets.value.items) (accesses ++ lent_clocked access.now ∷ []) kept.new) }
    {
        let owned = access.owned()?;
        let worker = usize::from(way_of(&owned.word, self.config.workers()));
        kept.ways[worker].add(kept.alloc, owned)?;
        kept.count = kept.count.saturating_add(1);
        Ok(())
    }

    fn close(&self, kept: &mut OnWay<A>, group: u16)
        ensures { (accesses : List ClockedAccess) → AreSplit self.now.config.workers (given_of self.now.outlets.value.items) accesses kept.old → AreSplit self.now.config.workers (given_of self.now.outlets.value.items) accesses kept.new }
    {
        for worker in 0..usize::from(self.config.workers()) {
            kept.ways[worker].note_end(kept.alloc, group);
        }
    }
}
