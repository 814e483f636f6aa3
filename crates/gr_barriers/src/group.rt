//! The barriers of one work-group: for each of its items the marks that it has brought, in their order.
//!
//! The mark with number k of each item belongs to instance k of the group (docs/MODEL.md, "Barriers").

ghost use Rattle.std.specs.Prelude.{◌≡◌, ◌<◌, ◌≤◌, ◌++◌, ◌∷◌, [], true, false, IfOk, OnOk, OnErr, length, replicate, slice_set, ℕ};
ghost use Rattle.gr_barriers.specs.Arrived.{marks_at, brought, IsState, IsCause};
ghost use Rattle.gr_barriers.specs.Summaries.{IsSummaryOf, NobodyCame};

use crate::instances::State;
use crate::mark::Mark;
use crate::summary::Summary;
use gr_model::limits::MOST_RECORDS;
use gr_model::memory::Memory;
use gr_model::report::DivergenceCause;
use std::alloc::{Allocator, Global};
use std::marker::Model;

/// The barriers of one work-group. Contracts see the marks of each item, and whether the group's stream has ended.
#[derive(Drop)]
#[derive_where(Debug)]
pub(crate) struct Group<A: Allocator = Global> {
    marks: Vec<Vec<Mark, A>, A>,
    ended: bool,
}

impl<A: Allocator> Model for Group<A> {
    ghost use Rattle.std.specs.Prelude.{map};
    ghost use Rattle.gr_barriers.specs.Arrived.{GroupMarks, AreFew};

    ghost Value = { GroupMarks };

    ghost view = { λ t. record { marks = map (λ v. v.items) t.marks.items; ended = t.ended } };

    ghost invariant = { λ t. AreFew (map (λ v. v.items) t.marks.items) };
}

impl<A: Allocator + Copy> Group<A> {
    /// A group of `items` work-items. None has come to a barrier yet.
    pub(crate) fn new(alloc: A, items: u16) -> Result<Group<A>, Memory>
        ensures { IfOk result (λ t. t ≡ record { marks = replicate items []; ended = false }) }
    {
        let mut marks = Vec::new(alloc);
        for _item in 0..items {
            marks.push(Vec::new(alloc))?;
        }
        Ok(Group {
            marks,
            ended: false,
        })
    }
}

impl<A: Allocator> Group<A> {
    /// How many items the group has.
    pub(crate) fn size(&self) -> usize
        ensures { result ≡ length self.now.marks }
    {
        self.marks.len()
    }

    /// Whether the group's stream has ended.
    pub(crate) fn has_ended(&self) -> bool
        ensures { result ≡ self.now.ended }
    {
        self.ended
    }

    /// Ends the group's stream.
    pub(crate) fn end(&mut self)
        ensures { self.new ≡ record self.old { ended = true } }
    {
        self.ended = true;
    }

    /// Adds a mark of an item. Returns its number, from 0.
    /// Requires: the group has the item, which has brought fewer than `MOST_RECORDS` marks.
    pub(crate) fn arrive(&mut self, item: u16, mark: Mark) -> Result<u32, Memory>
        requires item { item < length self.old.marks }
        requires few { length (marks_at self.old item) < MOST_RECORDS }
        ensures number { IfOk result (λ k. k ≡ length (marks_at self.old item)) }
        ensures ok { OnOk result (self.new ≡ record self.old { marks = slice_set self.old.marks item (marks_at self.old item ++ mark ∷ []) }) }
        ensures err { OnErr result (self.new ≡ self.old) }
    {
        let marks = &mut self.marks[item as usize];
        let number = marks.len() as u32;
        marks.push(mark)?;
        Ok(number)
    }

    /// What an item has brought to an instance, if it has come.
    fn arrival(&self, item: usize, instance: u32) -> Option<Mark>
        ensures { result ≡ brought self.now instance item }
    {
        self.marks.get(item)?.get(instance as usize).copied()
    }

    /// How many marks an item has brought.
    #[tactic(auto, using(crate::proofs::GroupLemmas::read_items))]
    pub(crate) fn count(&self, item: usize) -> usize
        ensures count { result ≡ length (marks_at self.now item) }
        ensures few { result ≤ MOST_RECORDS }
    {
        self.marks.get(item).map_or(0, |marks| marks.len())
    }

    /// How many barriers an item has brought, at most.
    pub(crate) fn instances(&self) -> u32
        ensures { (k : ℕ) → result ≤ k → NobodyCame (length self.now.marks) (brought self.now k) }
    {
        let mut most: usize = 0;
        for item in 0..self.size() {
            most = most.max(self.count(item));
        }
        most as u32
    }

    /// What the items have brought to an instance, in sum.
    fn summary(&self, instance: u32) -> Summary
        ensures { IsSummaryOf (length self.now.marks) (brought self.now instance) result }
    {
        let mut summary = Summary::new();
        for item in 0..self.size() {
            summary = summary.adding(self.arrival(item, instance));
        }
        summary
    }

    /// The state of an instance, or `None` if no item has come to it.
    pub(crate) fn state(&self, instance: u32) -> Option<State>
        ensures { IsState self.now instance result }
    {
        self.summary(instance).state(self.ended)
    }

    /// Why an instance is divergent, or `None` where it is not.
    pub(crate) fn cause(&self, instance: u32) -> Option<DivergenceCause>
        ensures { IsCause self.now instance result }
    {
        self.summary(instance).cause(self.ended)
    }
}
