//! The complete lists of a launch, one for each work-group.
//!
//! Invariant: there are as many lists as groups. Each list has at most `MOST_RECORDS` records, all of which its group may have. The last
//! record, and no other, is an end.

ghost use Rattle.std.specs.Prelude.{◌≡◌, ◌↔◌, ◌+◌, ◌<◌, IsTrue, IsOk, IfOk, IfErr, MatchOption, length, slice_index, slice_index_or, map, take};
ghost use Rattle.gr_model.specs.Shapes.{IsShape};
ghost use Rattle.gr_model.specs.Events.{is_end, IsEventOk};
ghost use Rattle.gr_model.specs.Streams.{IsAccepted, AreAccepted, IsFirstBadPlace, IsListFault, IsTracesFault, AreGood, is_complete, list_of, streams};

use crate::event::{Event, event_ok};
use crate::limits::MOST_RECORDS;
use crate::shape::Shape;
use std::alloc::{Allocator, Global};
use std::marker::Model;
use thiserror::Error;

/// Why lists are no traces: the first cause that is there, of the first group that has one.
#[derive(Clone, Copy, Debug, PartialEq, Eq, Error)]
pub enum TracesError {
    /// There are not as many lists as groups.
    #[error("there are not as many lists as groups")]
    WrongCount,
    /// The list of this group has more than `MOST_RECORDS` records.
    #[error("group {0} has too many records")]
    TooManyRecords(u16),
    /// The group, and the place in its list of the first record that the group may not have there.
    #[error("group {0} has a bad event at {1}")]
    BadEvent(u16, u32),
    /// The last record of this group's list is no end, or the list is empty.
    #[error("the list of group {0} has no end")]
    NoEnd(u16),
}

/// The complete lists of a launch. Contracts see the sizes of the groups, and of each group the list of its records.
#[derive(Drop)]
#[derive_where(Debug)]
pub struct Traces<A: Allocator = Global> {
    shape: Shape<A>,
    lists: Vec<Vec<Event, A>, A>,
}

impl<A: Allocator> Model for Traces<A> {
    ghost use Rattle.gr_model.specs.Streams.{Streams, AreAccepted, streams};

    ghost Value = { Streams };

    ghost view = { λ t. streams t.shape t.lists.items };

    ghost invariant = { λ t. AreAccepted (streams t.shape t.lists.items) };
}

/// Whether a group with `items` work-items may have this record at its place. `last` says whether it is the last record of its list.
fn good_at(event: &Event, items: u16, last: bool) -> bool
    ensures { IsTrue result ↔ (IsEventOk event.now items × (IsTrue (is_end event.now) → IsTrue last)) }
{
    event_ok(event, items) && (last || !event.kind.is_end())
}

/// The first place of a record that its group may not have there.
fn bad_place(list: &[Event], items: u16) -> Option<usize>
    ensures { MatchOption result (AreGood items list.now) (λ p. IsFirstBadPlace items list.now p) }
{
    for (p, event) in list.iter().enumerate() {
        if !good_at(event, items, p + 1 == list.len()) {
            return Some(p);
        }
    }
    None
}

/// Whether a list's last record is an end.
fn has_end(list: &[Event]) -> bool
    ensures { result ≡ is_complete list.now }
{
    match list.last() {
        None => false,
        Some(event) => event.kind.is_end(),
    }
}

/// What is wrong with a group's list.
fn list_fault(group: u16, items: u16, list: &[Event]) -> Option<TracesError>
    ensures { MatchOption result (IsAccepted items list.now) (λ e. IsListFault group items list.now e) }
{
    if list.len() > MOST_RECORDS {
        return Some(TracesError::TooManyRecords(group));
    }
    if let Some(p) = bad_place(list, items) {
        return Some(TracesError::BadEvent(group, p as u32));
    }
    (!has_end(list)).then_some(TracesError::NoEnd(group))
}

/// What is wrong with the lists of a shape's groups.
/// Requires: there are as many lists as groups.
fn first_fault<A: Allocator>(shape: &Shape<A>, lists: &[Vec<Event, A>]) -> Option<TracesError>
    requires { length lists.now ≡ length shape.now }
    ensures { MatchOption result (AreAccepted (streams shape.now lists.now)) (λ e. IsTracesFault (streams shape.now lists.now) e) }
{
    for g in 0..shape.groups() {
        let list = &lists[g as usize];
        if let Some(fault) = list_fault(g, shape.items(g), list) {
            return Some(fault);
        }
    }
    None
}

impl<A: Allocator> Traces<A> {
    /// The traces of a launch of this shape, where group g has the records `lists[g]` in the order of its stream.
    ///
    /// # Errors
    /// `WrongCount` if there are not as many lists as groups. Else, of the first group whose list is not accepted, the
    /// first of these that is there: `TooManyRecords`; `BadEvent` with the first such place; `NoEnd`.
    ///
    /// # Example
    /// ```rust
    /// let write = Event { item: 0, kind: Kind::Write, space: Space::Global, word: 16, names: Names::none() };
    /// let read = Event { item: 1, kind: Kind::Read, ..write };
    /// let shape = Shape::new(vec![in alloc; 2]?).ok().ok_or("shape")?;
    /// let list = vec![in alloc; write, read, Event::end(false)]?;
    /// let traces = Traces::new(shape, vec![in alloc; list]?).ok().ok_or("traces")?;
    /// assert_eq!(rt; traces.list(0), [write, read, Event::end(false)].as_slice());
    /// ```
    pub fn new(shape: Shape<A>, lists: Vec<Vec<Event, A>, A>) -> Result<Traces<A>, TracesError>
        ensures accepted { IsOk result ↔ AreAccepted (streams shape lists.items) }
        ensures lists { IfOk result (λ t. t ≡ streams shape lists.items) }
        ensures refused { IfErr result (λ e. IsTracesFault (streams shape lists.items) e) }
    {
        if lists.len() != shape.groups() as usize {
            return Err(TracesError::WrongCount);
        }
        match first_fault(&shape, &lists) {
            Some(fault) => Err(fault),
            None => Ok(Traces { shape, lists }),
        }
    }

    /// The sizes of the groups.
    pub fn shape(&self) -> &Shape<A>
        ensures sizes { result.now ≡ self.now.sizes }
        ensures accepted { AreAccepted self.now }
    {
        &self.shape
    }

    /// The records of a group, in the order of its stream, its end last.
    /// Requires: there is such a group.
    pub fn list(&self, group: u16) -> &[Event]
        requires { group < length self.now.sizes }
        ensures list { result.now ≡ list_of self.now group }
        ensures accepted { AreAccepted self.now }
    {
        &self.lists[group as usize]
    }
}
