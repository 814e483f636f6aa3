//! The instances of a launch's work-group barriers: the k-th barriers of a group's items are its instance k.
//!
//! An instance is convergent once every item of its group has come, all from one site and with the same flags. It is
//! divergent once two that came differ, or the group's stream has ended and an item is missing (docs/MODEL.md,
//! "Barriers"). A call that is refused changes nothing.

ghost use Rattle.std.specs.Prelude.{◌≡◌, ◌↔◌, ◌<◌, ◌≤◌, ◌+◌, ℕ, IsOkUnless, IsTrue, IfOk, OnOk, OnErr, length, map};
ghost use Rattle.gr_model.specs.Prelude.{HasItem, Lists, DivergenceBelow};
ghost use Rattle.gr_barriers.specs.declared.instances.BarrierError.TheVariants.{Memory as OutOfMemory};
ghost use Rattle.gr_barriers.specs.Arrived.{sizes_of, group_of, marks_of, fresh_group, Arrives, Ends, IsState, IsDivergence};
ghost use Rattle.gr_barriers.specs.Listings.{AreListedBefore};

use crate::group::Group;
use crate::mark::Mark;
use gr_model::event::ItemId;
use gr_model::limits::{MOST_GROUPS, MOST_RECORDS};
use gr_model::memory::Memory;
use gr_model::report::Divergence;
use gr_model::shape::Shape;
use std::alloc::{Allocator, Global};
use std::marker::Model;
use thiserror::Error;

/// What is known of an instance to which some item has come.
#[derive(Clone, Copy, Debug, PartialEq, Eq)]
pub enum State {
    /// Some item has not come yet, and those that came have one site and the same flags.
    Waiting,
    /// Every item has come, all from one site and with the same flags.
    Convergent,
    /// Two items came from different sites or with different flags, or the stream has ended and an item has not come.
    Divergent,
}

/// Why a call was refused. Nothing is then changed.
#[derive(Clone, Copy, Debug, PartialEq, Eq, Error)]
pub enum BarrierError {
    /// The launch has no such item.
    #[error("no such work-item")]
    UnknownItem,
    /// The stream of this group has ended.
    #[error("the stream of group {0} has ended")]
    Ended(u16),
    /// An allocation was refused.
    #[error("out of memory")]
    Memory,
}

impl From<Memory> for BarrierError {
    ghost from_gives = { λ _ e. e ≡ OutOfMemory };

    fn from(_error: Memory) -> BarrierError {
        BarrierError::Memory
    }
}

/// The barriers of a launch so far. Contracts see for each work-group the marks that each of its items has brought, in
/// their order, and whether the group's stream has ended.
#[derive(Drop)]
#[derive_where(Debug)]
pub struct Instances<A: Allocator = Global> {
    groups: Vec<Group<A>, A>,
}

impl<A: Allocator> Model for Instances<A> {
    ghost use Rattle.std.specs.Prelude.{List, ◌≤◌, length};
    ghost use Rattle.gr_model.specs.declared.limits.TheConstants.{MOST_GROUPS};
    ghost use Rattle.gr_barriers.specs.Arrived.{GroupMarks};

    ghost Value = { List GroupMarks };

    ghost view = { λ v. v.groups.items };

    ghost invariant = { λ v. length v.groups.items ≤ MOST_GROUPS };
}

impl<A: Allocator + Copy> Instances<A> {
    /// The barriers of a launch of this shape. No item has come to one yet.
    ///
    /// # Errors
    /// `Memory` if an allocation is refused.
    pub fn new(alloc: A, shape: &Shape<A>) -> Result<Instances<A>, Memory>
        ensures { IfOk result (λ v. v ≡ map fresh_group shape.now) }
    {
        let mut groups = Vec::new(alloc);
        for group in 0..shape.groups() {
            groups.push(Group::new(alloc, shape.items(group))?)?;
        }
        Ok(Instances { groups })
    }

    /// The divergent instances with their causes, by group and then by instance.
    ///
    /// # Errors
    /// `Memory` if an allocation is refused.
    pub fn divergences(&self) -> Result<Vec<Divergence, A>, Memory>
        ensures { IfOk result (λ ds. Lists DivergenceBelow (IsDivergence self.now) ds.items) }
    {
        let mut list = Vec::new(*self.groups.allocator());
        for group in 0..self.groups.len() {
            self.add_group(group as u16, &mut list)?;
        }
        Ok(list)
    }
}

impl<A: Allocator> Instances<A> {
    /// Whether there is such an item.
    fn has(&self, item: ItemId) -> bool
        ensures { IsTrue result ↔ HasItem (sizes_of self.now) item }
    {
        let group = usize::from(item.group);
        group < self.groups.len() && usize::from(item.item) < self.groups[group].size()
    }

    /// Whether the stream of a group has ended.
    fn has_ended(&self, group: u16) -> bool
        ensures { result ≡ (group_of self.now group).ended }
    {
        let barriers = self.groups.get(group as usize);
        barriers.is_some_and(|barriers| barriers.has_ended())
    }

    /// Adds a barrier of an item, at this site and with these flags. Returns the number of its instance, from 0.
    /// Requires: the item has brought fewer than `MOST_RECORDS` barriers.
    ///
    /// # Errors
    /// The first of these that is there: `UnknownItem` if the launch has no such item; `Ended` with the item's group if
    /// the stream of that has ended; `Memory` if an allocation is refused. Nothing is then changed.
    pub fn arrive(
        &mut self,
        item: ItemId,
        site: u32,
        global: bool,
        local: bool,
    ) -> Result<u32, BarrierError>
        requires few { length (marks_of self.old item) < MOST_RECORDS }
        ensures instance { IfOk result (λ k. k ≡ length (marks_of self.old item)) }
        ensures arrives { OnOk result (Arrives self.old item (record { site = site; global = global; local = local }) self.new) }
        ensures unknown { (result ≡ Err BarrierError.UnknownItem) ↔ ¬ HasItem (sizes_of self.old) item }
        ensures ended { (g : ℕ) → (result ≡ Err (BarrierError.Ended g)) ↔ (HasItem (sizes_of self.old) item × IsTrue (group_of self.old item.group).ended × (g ≡ item.group)) }
        ensures err { OnErr result (self.new ≡ self.old) }
    {
        if !self.has(item) {
            return Err(BarrierError::UnknownItem);
        }
        if self.has_ended(item.group) {
            return Err(BarrierError::Ended(item.group));
        }
        let barriers = &mut self.groups[item.group as usize];
        let instance = barriers.arrive(item.item, Mark::new(site, global, local))?;
        Ok(instance)
    }

    /// Ends the stream of a group.
    /// Requires: there is such a group.
    ///
    /// # Errors
    /// `Ended` with the group if its stream has ended already; nothing is then changed. It takes no memory.
    pub fn end_group(&mut self, group: u16) -> Result<(), BarrierError>
        requires { group < length self.old }
        ensures ok { OnOk result (Ends self.old group self.new) }
        ensures ended { (g : ℕ) → (result ≡ Err (BarrierError.Ended g)) ↔ (IsTrue (group_of self.old group).ended × (g ≡ group)) }
        ensures only { IsOkUnless result (BarrierError.Ended group) }
        ensures err { OnErr result (self.new ≡ self.old) }
    {
        if self.has_ended(group) {
            return Err(BarrierError::Ended(group));
        }
        self.groups[group as usize].end();
        Ok(())
    }

    /// What is known of an instance of a group, or `None` if no item has come to it.
    pub fn state(&self, group: u16, instance: u32) -> Option<State>
        ensures { IsState (group_of self.now group) instance result }
    {
        self.groups.get(group as usize)?.state(instance)
    }

    /// Adds the divergent instances of a group to those of the groups before it.
    /// Requires: there is such a group, and the list has those of the groups before it.
    fn add_group(&self, group: u16, list: &mut Vec<Divergence, A>) -> Result<(), Memory>
        requires group { group < length self.now }
        requires before { AreListedBefore (IsDivergence self.now) group 0 list.old.items }
        ensures { OnOk result (AreListedBefore (IsDivergence self.now) (group + 1) 0 list.new.items) }
    {
        let barriers = &self.groups[group as usize];
        for instance in 0..barriers.instances() {
            if let Some(cause) = barriers.cause(instance) {
                list.push(Divergence {
                    group,
                    instance,
                    cause,
                })?;
            }
        }
        Ok(())
    }
}
