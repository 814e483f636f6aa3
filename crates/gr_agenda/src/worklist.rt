//! The list of the steps that may have become ready.
//!
//! Invariant: a marked step is in the list. A step may be there more than once, and without a mark.

ghost use Rattle.std.specs.Prelude.{◌≡◌, [], ◌⊎◌, ◌≢◌, ℕ, true, Some, IsTrue, MatchOption, slice_get};
ghost use Rattle.gr_order.specs.declared.steps.Ready.{Ready as AnyStep};
ghost use Rattle.gr_agenda.specs.Lists.{Has, HasNone, IsLast, IsPlace, KeepsSteps};

use gr_order::steps::Ready;
use std::alloc::{Allocator, Global};
use std::marker::Model;

/// The steps that may have become ready, and whether memory was too short for one of them.
#[derive(Drop)]
#[derive_where(Debug)]
pub(crate) struct Worklist<A: Allocator = Global> {
    steps: Vec<Ready, A>,
    marks: Vec<bool, A>,
    short: bool,
}

impl<A: Allocator> Model for Worklist<A> {
    ghost use Rattle.gr_agenda.specs.Lists.{AreMarked, Steps};

    ghost Value = { Steps };

    ghost view = { λ t. record { steps = t.steps.items; short = t.short } };

    ghost invariant = { λ t. AreMarked t.marks.items t.steps.items };
}

/// The place of a step's mark, if it has one.
fn place_of(step: Ready) -> Option<usize>
    ensures { MatchOption result ((p : ℕ) → ¬ IsPlace step p) (λ p. IsPlace step p) }
{
    match step {
        Ready::Group(group) => Some(usize::from(group) * 1_025),
        Ready::Item(at) if at.item < 1_024 => {
            Some(usize::from(at.group) * 1_025 + 1 + usize::from(at.item))
        }
        Ready::Item(_) => None,
    }
}

/// Whether a step is marked.
fn is_marked(marks: &[bool], step: Ready) -> bool
    ensures { IsTrue result → (p : ℕ) × IsPlace step p × (slice_get marks.now p ≡ Some true) }
{
    place_of(step).is_some_and(|place| place < marks.len() && marks[place])
}

/// Makes places for marks until there are this many, as far as memory suffices.
fn reach<A: Allocator>(marks: &mut Vec<bool, A>, count: usize)
    ensures { (p : ℕ) → slice_get marks.new.items p ≡ Some true → slice_get marks.old.items p ≡ Some true }
{
    while marks.len() < count {
        if marks.push(false).is_err() {
            return;
        }
    }
}

/// Marks a step, if there is a place for its mark, or memory for one.
fn mark<A: Allocator>(marks: &mut Vec<bool, A>, step: Ready)
    ensures { (p : ℕ) → slice_get marks.new.items p ≡ Some true → IsPlace step p ⊎ (slice_get marks.old.items p ≡ Some true) }
{
    if let Some(place) = place_of(step) {
        reach(marks, place + 1);
        if place < marks.len() {
            marks[place] = true;
        }
    }
}

/// Removes a step's mark.
fn unmark<A: Allocator>(marks: &mut Vec<bool, A>, step: Ready)
    ensures here { (p : ℕ) → IsPlace step p → slice_get marks.new.items p ≢ Some true }
    ensures others { (p : ℕ) → slice_get marks.new.items p ≡ Some true → slice_get marks.old.items p ≡ Some true }
{
    if let Some(place) = place_of(step)
        && place < marks.len()
    {
        marks[place] = false;
    }
}

impl<A: Allocator + Copy> Worklist<A> {
    /// The empty list.
    pub(crate) fn new(alloc: A) -> Worklist<A> {
        Worklist {
            steps: Vec::new(alloc),
            marks: Vec::new(alloc),
            short: false,
        }
    }
}

impl<A: Allocator> Worklist<A> {
    /// How many steps are in the list.
    pub(crate) fn len(&self) -> usize {
        self.steps.len()
    }

    /// Whether the list is empty and no step is missing.
    pub(crate) fn is_done(&self) -> bool
        ensures { IsTrue result → HasNone self.now }
    {
        self.steps.is_empty() && !self.short
    }

    /// The last step.
    pub(crate) fn last(&self) -> Option<Ready>
        ensures { MatchOption result (self.now.steps ≡ []) (λ r. IsLast self.now r) }
    {
        self.steps.last().copied()
    }

    /// Notes that a step is missing.
    pub(crate) fn note_shortage(&mut self)
        ensures { (r : AnyStep) → Has self.new r }
    {
        self.short = true;
    }

    /// Puts a step into the list.
    #[inline(always)]
    pub(crate) fn put(&mut self, step: Ready)
        ensures there { Has self.new step }
        ensures keeps { KeepsSteps self.old self.new }
    {
        if is_marked(&self.marks, step) {
            return;
        }
        match self.steps.push(step) {
            Ok(()) => mark(&mut self.marks, step),
            Err(_) => self.short = true,
        }
    }

    /// Takes the last step out of the list.
    pub(crate) fn drop_last(&mut self)
        ensures { (r : AnyStep) → Has self.old r → ¬ IsLast self.old r → Has self.new r }
    {
        if let Some(step) = self.steps.pop() {
            unmark(&mut self.marks, step);
        }
    }
}
