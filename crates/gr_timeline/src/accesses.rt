//! All accesses of a launch to one word.

ghost use Rattle.std.specs.Prelude.{◌≡◌, None, IfOk, OnOk};
ghost use Rattle.gr_model.specs.Prelude.{IsAccepted};
ghost use Rattle.gr_timeline.specs.Accesses.{AreAccesses, details_at};
ghost use Rattle.gr_timeline.specs.Gathering.{AreKnownIn, AreOthersKept, KeepsRecord};

use crate::counting::{Count, count_record, none_counted};
use crate::details::Details;
use gr_model::event::{Event, EventId, ItemId, Word, word_of};
use gr_model::memory::Memory;
use gr_model::traces::Traces;
use indexmap::IndexMap;
use std::alloc::Allocator;
use std::hash::{BuildHasherDefault, FoldHasher};

/// Accesses, with the details of each, in the order of their groups and of their records.
pub type Accesses<A> = IndexMap<EventId, Details, BuildHasherDefault<FoldHasher>, A>;

/// Keeps the details of a record of a group, of this number in the group's list, if it accesses the word.
fn keep<A: Allocator>(
    known: &mut Accesses<A>,
    word: Word,
    group: u16,
    number: usize,
    event: &Event,
    count: Count,
) -> Result<(), Memory>
    ensures { OnOk result (KeepsRecord word group number event.now count known.old.entries known.new.entries) }
{
    if word_of(group, event) == Some(word) {
        let (item, kind, index) = (event.item, event.kind, count.records);
        let at = ItemId { group, item };
        let details = Details {
            kind,
            number,
            phase: count.barriers,
        };
        known.insert(EventId { at, index }, details)?;
    }
    Ok(())
}

/// Adds the accesses of a group to a word.
fn add_group<A: Allocator + Copy>(
    alloc: A,
    known: &mut Accesses<A>,
    word: Word,
    group: u16,
    items: u16,
    list: &[Event],
) -> Result<(), Memory>
    requires accepted { IsAccepted items list.now }
    requires none { (e : EventId) → e.at.group ≡ group → details_at known.old.entries e ≡ None }
    ensures here { OnOk result (AreKnownIn list.now word group known.new.entries) }
    ensures others { OnOk result (AreOthersKept group known.old.entries known.new.entries) }
{
    let mut counts = none_counted(alloc, items)?;
    for (number, event) in list.iter().enumerate() {
        let count = counts[event.item as usize];
        keep(known, word, group, number, event, count)?;
        count_record(&mut counts, event);
    }
    Ok(())
}

/// All accesses of a launch to a word, with the details of each.
///
/// It goes over the records of the launch once. Its memory grows with the accesses to the word, and with the items of
/// the largest group.
///
/// # Errors
/// `Memory`: out of memory.
pub fn accesses_of<A: Allocator + Copy>(
    alloc: A,
    traces: &Traces<A>,
    word: Word,
) -> Result<Accesses<A>, Memory>
    ensures { IfOk result (λ known. AreAccesses traces.now word known.entries) }
{
    let mut known = IndexMap::new(alloc);
    for group in 0..traces.shape().groups() {
        let items = traces.shape().items(group);
        add_group(alloc, &mut known, word, group, items, traces.list(group))?;
    }
    Ok(known)
}
