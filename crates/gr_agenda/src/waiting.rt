//! The lists of the items that wait for releases, by the releases' names.

ghost use Rattle.std.specs.Prelude.{◌≡◌, ◌⊎◌, OnOk};
ghost use Rattle.gr_model.specs.declared.event.ItemId.{ItemId as AnyItem};
ghost use Rattle.gr_model.specs.declared.event.Name.{Name as AnyName};
ghost use Rattle.gr_order.specs.declared.steps.Ready.TheVariants.{Item};
ghost use Rattle.gr_agenda.specs.Lists.{Has, IsAmong, IsWaiting, KeepsSteps, bucket_of};

use crate::worklist::Worklist;
use gr_model::event::{ItemId, Name};
use gr_model::memory::Memory;
use gr_order::steps::Ready;
use std::alloc::Allocator;

/// How many lists there are.
pub(crate) const LISTS: usize = 2048;

/// How far apart the lists of two neighbouring items are, and those of an item's releases. They are primes, so that few share a
/// list.
const ITEM_STEP: usize = 67;

const RELEASE_STEP: usize = 257;

/// The list for the items that wait for the release of this name. Other names may share it.
fn bucket_of(named: Name) -> usize
    ensures { result ≡ bucket_of named }
{
    let item = usize::from(named.at.group) + usize::from(named.at.item) * ITEM_STEP;
    (item + named.release as usize * RELEASE_STEP) % LISTS
}

/// Enters an item in the list of those that wait for the release of this name.
///
/// # Errors
/// `Memory`: out of memory.
pub(crate) fn wait<A: Allocator>(
    lists: &mut Vec<Vec<ItemId, A>, A>,
    named: Name,
    item: ItemId,
) -> Result<(), Memory>
    ensures there { OnOk result (IsWaiting lists.new.items named item) }
    ensures keeps { (n : AnyName) (i : AnyItem) → IsWaiting lists.old.items n i → IsWaiting lists.new.items n i }
{
    match lists.get_mut(bucket_of(named)) {
        // never: `bucket_of` is below the number of lists; and after `Memory` every step is looked at
        None => Err(Memory),
        Some(list) => {
            list.push(item)?;
            Ok(())
        }
    }
}

/// Puts the step of each item of a list among those that may be ready.
fn put_all<A: Allocator>(list: &[ItemId], worklist: &mut Worklist<A>)
    ensures there { (i : AnyItem) → IsAmong list.now i → Has worklist.new (Item i) }
    ensures keeps { KeepsSteps worklist.old worklist.new }
{
    for item in list {
        worklist.put(Ready::Item(*item));
    }
}

/// Moves the items that wait for the release of this name to the steps that may be ready.
pub(crate) fn wake<A: Allocator>(
    lists: &mut Vec<Vec<ItemId, A>, A>,
    named: Name,
    worklist: &mut Worklist<A>,
)
    ensures woken { (i : AnyItem) → IsWaiting lists.old.items named i → Has worklist.new (Item i) }
    ensures others { (n : AnyName) (i : AnyItem) → IsWaiting lists.old.items n i
        → Has worklist.new (Item i) ⊎ IsWaiting lists.new.items n i }
    ensures keeps { KeepsSteps worklist.old worklist.new }
{
    if let Some(list) = lists.get_mut(bucket_of(named)) {
        put_all(list, worklist);
        list.clear();
    }
}
