//! The counts of the items of some work-groups, in blocks of one work-group each, which clocks share. A group of which nothing is counted
//! may have no block.

ghost use Rattle.std.specs.Prelude.{IsTrue, ◌≡◌, ◌<◌, ◌≤◌, All, IfOk, OnOk, IsOkUnless, [], length, slice_index_or};
ghost use Rattle.gr_clocks.specs.declared.clock.ClockError.TheVariants.{Memory as OutOfMemory};
ghost use Rattle.gr_model.specs.declared.event.ItemId.{ItemId as AnyItem};
ghost use Rattle.gr_clocks.specs.Pages.{IsPageWithin};
ghost use Rattle.gr_clocks.specs.Counts.{count_of, CountSame, IsJoin};
ghost use Rattle.gr_clocks.specs.Owned.{IsRaisedBy, IsRaisedTo};

use crate::block::{Block, count_at};
use crate::clock::{ClockError, LARGEST_COUNT};
use gr_model::event::ItemId;
use std::alloc::{Allocator, Global};
use std::marker::Model;

/// The counts of all items. Contracts see one list of counts for each work-group.
#[derive(Drop)]
#[derive_where(Debug)]
pub(crate) struct Page<A: Allocator = Global> {
    blocks: Vec<Block<A>, A>,
}

impl<A: Allocator> Model for Page<A> {
    ghost use Rattle.gr_clocks.specs.Pages.{IsPageWithin};
    ghost use Rattle.gr_clocks.specs.Counts.{Counts};

    ghost Value = { Counts };

    ghost view = { λ b. b.blocks.items };
}

impl<A: Allocator> Page<A> {
    /// No counts at all.
    pub(crate) fn none(alloc: A) -> Page<A>
        ensures { (i : AnyItem) → count_of result i ≡ 0 }
    {
        Page {
            blocks: Vec::new(alloc),
        }
    }

    /// The counts of a group's items, as far as there are some.
    pub(crate) fn row(&self, group: u16) -> &[u32]
        ensures counts { result.now ≡ slice_index_or self.now group [] }
        ensures limit { All (λ n. n ≤ LARGEST_COUNT) result.now }
    {
        match self.blocks.get(group as usize) {
            None => &[],
            Some(block) => block.as_slice(),
        }
    }

    /// Whether it is sure that nothing is counted of the group's items.
    pub(crate) fn lacks(&self, group: u16) -> bool
        ensures { IsTrue result → (j : AnyItem) → j.group ≡ group → count_of self.now j ≡ 0 }
    {
        let block = self.blocks.get(group as usize);
        block.is_none_or(|block| block.is_zero())
    }

    /// Whether it is sure that no count is above the other's.
    #[tactic(auto, using(crate::proofs::PageLemmas::within_more, crate::proofs::PageLemmas::within_all))]
    pub(crate) fn is_within(&self, other: &Page<A>) -> bool
        ensures { IsTrue result → IsPageWithin self.now other.now }
    {
        if self.blocks.len() > other.blocks.len() {
            return false;
        }
        for group in 0..self.blocks.len() {
            if !self.blocks[group].is_within(&other.blocks[group]) {
                return false;
            }
        }
        true
    }
}

impl<A: Allocator + Clone> Page<A> {
    /// Its allocator.
    pub(crate) fn alloc(&self) -> Result<A, ClockError>
        ensures memory { IsOkUnless result ClockError.Memory }
    {
        Ok(self.blocks.allocator().clone()?)
    }

    /// The same counts once more, shared.
    pub(crate) fn copy(&self) -> Result<Page<A>, ClockError>
        ensures copy { IfOk result (λ b. b ≡ self.now) }
        ensures memory { IsOkUnless result ClockError.Memory }
    {
        let alloc = self.alloc()?;
        let mut blocks = Vec::with_capacity(alloc, self.blocks.len())?;
        for block in &self.blocks {
            blocks.push(block.copy()?)?;
        }
        Ok(Page { blocks })
    }

    /// Makes blocks until so many groups have one. The counts stay.
    #[tactic(auto, using(crate::proofs::BlockLemmas::push_empty))]
    fn reach(&mut self, groups: usize) -> Result<(), ClockError>
        ensures same { OnOk result (CountSame self.new self.old) }
        ensures there { OnOk result (groups ≤ length self.new) }
        ensures memory { IsOkUnless result ClockError.Memory }
    {
        while self.blocks.len() < groups {
            let block = Block::empty(self.alloc()?)?;
            self.blocks.push(block)?;
        }
        Ok(())
    }

    /// Takes this count of an item, where it is greater than the one there.
    pub(crate) fn raise_to(&mut self, item: ItemId, count: u32) -> Result<(), ClockError>
        requires { count ≤ LARGEST_COUNT }
        ensures raised { OnOk result (IsRaisedTo self.old item count self.new) }
        ensures memory { IsOkUnless result ClockError.Memory }
    {
        let group = item.group as usize;
        self.reach(group + 1)?;
        if count_at(self.row(item.group), item.item) < count {
            let block = self.blocks[group].with(item.item, count)?;
            self.blocks[group] = block;
        }
        Ok(())
    }

    /// Takes these counts of a group's items, each where it is greater than the one there.
    pub(crate) fn raise_by(&mut self, group: u16, counts: Vec<u32, A>) -> Result<(), ClockError>
        requires { All (λ n. n ≤ LARGEST_COUNT) counts.items }
        ensures raised { OnOk result (IsRaisedBy self.old group counts.items self.new) }
        ensures memory { IsOkUnless result ClockError.Memory }
    {
        let group = group as usize;
        let block = Block::of(self.alloc()?, counts)?;
        self.reach(group + 1)?;
        let joined = self.blocks[group].joined(&block)?;
        self.blocks[group] = joined;
        Ok(())
    }

    /// The greater count of each item. The other page has no more blocks.
    fn merged(&self, other: &Page<A>) -> Result<Page<A>, ClockError>
        requires { length other.now ≤ length self.now }
        ensures join { IfOk result (λ b. IsJoin self.now other.now b) }
        ensures memory { IsOkUnless result ClockError.Memory }
    {
        let mut blocks = Vec::with_capacity(self.alloc()?, self.blocks.len())?;
        for group in 0..self.blocks.len() {
            let mine = &self.blocks[group];
            let joined = match other.blocks.get(group) {
                None => mine.copy()?,
                Some(theirs) => mine.joined(theirs)?,
            };
            blocks.push(joined)?;
        }
        Ok(Page { blocks })
    }

    /// The greater count of each item, in blocks that are shared where one of the two blocks has it.
    pub(crate) fn joined(&self, other: &Page<A>) -> Result<Page<A>, ClockError>
        ensures join { IfOk result (λ b. IsJoin self.now other.now b) }
        ensures memory { IsOkUnless result ClockError.Memory }
    {
        if self.blocks.len() < other.blocks.len() {
            other.merged(self)
        } else {
            self.merged(other)
        }
    }
}
