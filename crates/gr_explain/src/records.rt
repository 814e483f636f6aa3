//! The records of a launch, found by their events.

ghost use Rattle.std.specs.Prelude.{◌≡◌, ◌∷◌, ◌++◌, ◌<◌, [], ℕ, IfOk, OnOk, if◌then◌else◌, length, slice_get, slice_index_or};
ghost use Rattle.gr_model.specs.declared.limits.TheConstants.{MOST_RECORDS};
ghost use Rattle.gr_model.specs.Streams as model;
ghost use Rattle.gr_model.specs.Prelude.{IsAccepted, is_of};
ghost use Rattle.gr_explain.specs.Records.{IsIndexOf};

use gr_model::event::{Event, EventId};
use gr_model::memory::Memory;
use gr_model::traces::Traces;
use std::alloc::{Allocator, Global};
use std::marker::Model;

/// For each item of a group, the places of its records in the group's list, ascending.
#[derive(Drop)]
#[derive_where(Debug)]
struct Index<A: Allocator = Global> {
    places: Vec<Vec<u32, A>, A>,
}

impl<A: Allocator> Model for Index<A> {
    ghost use Rattle.std.specs.Prelude.{List, ℕ, map};

    ghost Value = { List (List ℕ) };

    ghost view = { λ i. map (λ v. v.items) i.places.items };
}

impl<A: Allocator> Index<A> {
    /// Adds the record at a place of the list.
    fn add(&mut self, place: usize, event: &Event) -> Result<(), Memory>
        requires there { event.now.item < length self.old }
        requires few { place < MOST_RECORDS }
        ensures length { OnOk result (length self.new ≡ length self.old) }
        ensures each { OnOk result ((i : ℕ) → i < length self.old → slice_index_or self.new i [] ≡ if is_of i event.now then slice_index_or self.old i [] ++ place ∷ [] else slice_index_or self.old i []) }
    {
        if !event.kind.is_end() {
            self.places[usize::from(event.item)].push(place as u32)?;
        }
        Ok(())
    }

    /// The place of the record of this index in an item's trace, if there is one.
    fn place(&self, item: u16, index: u32) -> Option<u32>
        ensures { result ≡ slice_get (slice_index_or self.now item []) index }
    {
        self.places
            .get(usize::from(item))?
            .get(index as usize)
            .copied()
    }
}

impl<A: Allocator + Copy> Index<A> {
    /// No records of so many items.
    fn new(alloc: A, items: u16) -> Result<Index<A>, Memory>
        ensures { IfOk result (λ index. IsIndexOf items [] index) }
    {
        let mut places = Vec::new(alloc);
        for _ in 0..items {
            places.push(Vec::new(alloc))?;
        }
        Ok(Index { places })
    }

    /// The records of a list of a group of so many items.
    fn of(alloc: A, items: u16, list: &[Event]) -> Result<Index<A>, Memory>
        requires { IsAccepted items list.now }
        ensures { IfOk result (λ index. IsIndexOf items list.now index) }
    {
        let mut index = Index::new(alloc, items)?;
        for (place, event) in list.iter().enumerate() {
            index.add(place, event)?;
        }
        Ok(index)
    }
}

/// All records of a launch. Contracts see its streams.
///
/// It takes four bytes for each record, beside the launch itself.
#[derive(Drop)]
#[derive_where(Debug)]
pub struct Records<'a, A: Allocator = Global> {
    traces: &'a Traces<A>,
    /// An index for each group.
    indices: Vec<Index<A>, A>,
}

impl<'a, A: Allocator> Model for Records<'a, A> {
    ghost use Rattle.gr_model.specs.Prelude.{Streams};
    ghost use Rattle.gr_explain.specs.Records.{AreIndicesOf};

    ghost Value = { Streams };

    ghost view = { λ r. r.traces.now };

    ghost invariant = { λ r. AreIndicesOf r.traces.now r.indices.items };
}

impl<'a, A: Allocator + Copy> Records<'a, A> {
    /// The records of a launch.
    ///
    /// # Errors
    /// `Memory`: out of memory.
    pub fn of(alloc: A, traces: &'a Traces<A>) -> Result<Records<'a, A>, Memory>
        ensures { IfOk result (λ records. records ≡ traces.now) }
    {
        let mut indices = Vec::new(alloc);
        for group in 0..traces.shape().groups() {
            let items = traces.shape().items(group);
            indices.push(Index::of(alloc, items, traces.list(group))?)?;
        }
        Ok(Records { traces, indices })
    }
}

impl<A: Allocator> Records<'_, A> {
    /// The record of an event, or `None` if there is none of this index.
    pub fn event_at(&self, event: EventId) -> Option<Event>
        ensures { result ≡ model.event_at self.now event }
    {
        let index = self.indices.get(usize::from(event.at.group))?;
        let place = index.place(event.at.item, event.index)?;
        self.traces
            .list(event.at.group)
            .get(place as usize)
            .copied()
    }
}
