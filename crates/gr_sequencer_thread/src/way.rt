//! The accesses on their way to one worker.
//!
//! Invariant: no `Stop` is on its way.

ghost use Rattle.std.specs.Prelude.{◌≡◌, ◌++◌, ◌+◌, ◌∷◌, [], IfNone, IfSome, IsFalse, IsTrue, List, OnErr, OnOk, Option, None, Some, length};
ghost use Rattle.gr_clocks.specs.declared.access.Access.{Access as AnyAccess};
ghost use Rattle.gr_route.specs.declared.work.Work.{Work as AnyWork};
ghost use Rattle.gr_route.specs.declared.work.Work.TheVariants.{Access as OfAccess};
ghost use Rattle.gr_route.specs.WorkRule.{is_stopped};
ghost use Rattle.gr_sequencer_thread.specs.Feeds.{work_on_way};

use crate::outlet::Outlet;
use gr_clocks::access::Access;
use gr_model::memory::Memory;
use gr_route::batch::{Batch, Outbox};
use gr_route::room::Full;
use gr_route::work::Work;
use std::alloc::{Allocator, Global};
use std::collections::VecDeque;
use std::marker::Model;
use std::sync::Wait;

/// How many lists are kept at most, to be filled.
const MOST_LISTS: usize = 16;

/// The accesses on their way to one worker: some are in batches, and the others wait for more of them. Contracts see the list of all.
#[derive(Drop)]
pub(crate) struct Way<A: Allocator = Global> {
    /// The first batch, if the worker's queue had no room for it.
    refused: Option<Batch<Work<A>, A>>,
    /// The batches after it.
    batches: VecDeque<Batch<Work<A>, A>, A>,
    /// Those after them.
    waiting: Outbox<Work<A>, A>,
    /// Lists to be filled.
    lists: VecDeque<Vec<Work<A>, A>, A>,
    /// A hint for the next batch: these work-groups have ended.
    ended: Option<Vec<u16, A>>,
}

impl<A: Allocator> Model for Way<A> {
    ghost use Rattle.std.specs.Prelude.{List, IsFalse};
    ghost use Rattle.gr_route.specs.declared.work.Work.{Work};
    ghost use Rattle.gr_route.specs.WorkRule.{is_stopped};
    ghost use Rattle.gr_sequencer_thread.specs.Feeds.{work_on_way};

    ghost Value = { List (Work A) };

    ghost view = { λ w. work_on_way w.refused w.batches.items w.waiting };

    ghost invariant = { λ w. IsFalse (is_stopped (work_on_way w.refused w.batches.items w.waiting)) };
}

impl<A: Allocator> Way<A> {
    /// Whether no access is on its way.
    pub(crate) fn is_empty(&self) -> bool
        ensures { IsTrue result → self.now ≡ [] }
    {
        self.refused.is_none() && self.batches.is_empty() && self.waiting.is_empty()
    }

    /// Passes the first batch on; if there is none and `all` is true, the accesses that wait for more. Gives how many accesses it
    /// passed on: 0 if there are none, or no room.
    fn pass<R: Wait>(&mut self, rt: &R, outlet: &mut Outlet<A>, all: bool) -> usize
        requires open { IsFalse (is_stopped outlet.old.pushed) }
        ensures moved { outlet.new.pushed ++ self.new ≡ outlet.old.pushed ++ self.old }
        ensures fewer { length self.new + result ≡ length self.old }
        ensures queue { outlet.new.queue ≡ outlet.old.queue }
        ensures open { IsFalse (is_stopped outlet.new.pushed) }
    {
        let Some(batch) = take_first(
            &mut self.refused,
            &mut self.batches,
            &mut self.waiting,
            &mut self.ended,
            all,
        ) else {
            return 0;
        };
        let count = batch.len();
        match outlet.push_all(rt, batch) {
            Ok(()) => count,
            Err(Full(batch)) => {
                self.refused = Some(batch);
                0
            }
        }
    }

    /// Passes the batches on, as far as there is room for them, and if `all` is true, the accesses that wait for more. Gives how many
    /// accesses it passed on.
    pub(crate) fn pass_all<R: Wait>(&mut self, rt: &R, outlet: &mut Outlet<A>, all: bool) -> usize
        requires open { IsFalse (is_stopped outlet.old.pushed) }
        ensures moved { outlet.new.pushed ++ self.new ≡ outlet.old.pushed ++ self.old }
        ensures queue { outlet.new.queue ≡ outlet.old.queue }
        ensures open { IsFalse (is_stopped outlet.new.pushed) }
    {
        let mut count: usize = 0;
        let mut passed = self.pass(rt, outlet, all);
        while passed > 0 {
            count = count.saturating_add(passed);
            passed = self.pass(rt, outlet, all);
        }
        self.find_lists(rt, outlet);
        count
    }

    /// Takes used lists from the queue, to be filled again.
    fn find_lists<R: Wait>(&mut self, rt: &R, outlet: &Outlet<A>)
        ensures { self.new ≡ self.old }
    {
        for _ in self.lists.len()..MOST_LISTS {
            if let Some(list) = outlet.queue.spares.take(rt) {
                let _ = self.lists.push_back(list);
            }
        }
    }
}

/// Takes out the first batch; if there is none and `all` is true, the accesses that wait for more.
fn take_first<A: Allocator>(
    refused: &mut Option<Batch<Work<A>, A>>,
    batches: &mut VecDeque<Batch<Work<A>, A>, A>,
    waiting: &mut Outbox<Work<A>, A>,
    ended: &mut Option<Vec<u16, A>>,
    all: bool,
) -> Option<Batch<Work<A>, A>>
    ensures some { IfSome result (λ batch. work_on_way refused.old batches.old.items waiting.old ≡ batch ++ work_on_way None batches.new.items waiting.new) }
    ensures none { IfNone result (work_on_way refused.old batches.old.items waiting.old ≡ work_on_way None batches.new.items waiting.new) }
    ensures refused { refused.new ≡ None }
{
    if let Some(batch) = refused.take() {
        return Some(batch);
    }
    match batches.pop_front() {
        Some(batch) => Some(batch),
        None if all => take_waiting(waiting, ended),
        None => None,
    }
}

/// Takes out the accesses that wait for more, as a batch with the hint which groups have ended.
fn take_waiting<A: Allocator>(
    waiting: &mut Outbox<Work<A>, A>,
    ended: &mut Option<Vec<u16, A>>,
) -> Option<Batch<Work<A>, A>>
    ensures some { IfSome result (λ batch. batch ≡ waiting.old) }
    ensures none { IfNone result (waiting.old ≡ []) }
    ensures empty { waiting.new ≡ [] }
{
    let batch = waiting.take()?;
    Some(batch.with_ended(ended.take()))
}

/// Makes a batch of the accesses that wait for more.
///
/// # Errors
/// `Memory`: out of memory. They are then dropped.
fn close<A: Allocator>(
    batches: &mut VecDeque<Batch<Work<A>, A>, A>,
    waiting: &mut Outbox<Work<A>, A>,
    ended: &mut Option<Vec<u16, A>>,
) -> Result<(), Memory>
    ensures same { OnOk result ((refused : Option (List (AnyWork A))) → work_on_way refused batches.new.items waiting.new ≡ work_on_way refused batches.old.items waiting.old) }
    ensures unchanged { OnErr result (batches.new.items ≡ batches.old.items) }
    ensures none { waiting.new ≡ [] }
{
    if let Some(batch) = take_waiting(waiting, ended) {
        batches.push_back(batch)?;
    }
    Ok(())
}

/// Lends one of these lists, if there is one, to the outbox, unless it has a list.
fn lend<A: Allocator>(lists: &mut VecDeque<Vec<Work<A>, A>, A>, waiting: &mut Outbox<Work<A>, A>)
    ensures { waiting.new ≡ waiting.old }
{
    if let Some(list) = lists.pop_front() {
        waiting.lend(list);
    }
}

impl<A: Allocator + Copy> Way<A> {
    /// No access is on its way.
    pub(crate) fn new(alloc: A) -> Way<A>
        ensures { result ≡ [] }
    {
        Way {
            refused: None,
            batches: VecDeque::new(alloc),
            waiting: Outbox::new(),
            lists: VecDeque::new(alloc),
            ended: None,
        }
    }

    /// Notes that a group has ended, for the worker's next batch. It is a hint: without memory it is left out.
    pub(crate) fn note_end(&mut self, alloc: A, group: u16)
        ensures { self.new ≡ self.old }
    {
        let mut ended = self.ended.take().unwrap_or(Vec::new(alloc));
        let _ = ended.push(group);
        self.ended = Some(ended);
    }

    /// Adds an access after the others.
    #[inline(always)]
    pub(crate) fn add(&mut self, alloc: A, access: Access<A>) -> Result<(), Memory>
        ensures { OnOk result (self.new ≡ self.old ++ OfAccess access ∷ []) }
    {
        match self.waiting.add(alloc, Work::Access(access)) {
            Ok(()) => Ok(()),
            Err(work) => self.add_in_next(alloc, work),
        }
    }

    /// Adds an access when the waiting ones are full: they become a batch.
    fn add_in_next(&mut self, alloc: A, work: Work<A>) -> Result<(), Memory>
        requires { (access : AnyAccess A) × (work ≡ OfAccess access) }
        ensures { OnOk result (self.new ≡ self.old ++ work ∷ []) }
    {
        close(&mut self.batches, &mut self.waiting, &mut self.ended)?;
        lend(&mut self.lists, &mut self.waiting);
        if let Err(_) = self.waiting.add(alloc, work) {
            return Err(Memory);
        }
        Ok(())
    }
}
