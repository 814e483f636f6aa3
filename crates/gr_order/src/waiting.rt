//! What is kept of a record that is taken, until it is handled.

ghost use Rattle.std.specs.Prelude.{◌≡◌, OnOk, OnErr, length, map};
ghost use Rattle.gr_clocks.specs.Tables.{item_of};
ghost use Rattle.gr_model.specs.Prelude.{HasItem};
ghost use Rattle.gr_windows.specs.Windows.{Table};
ghost use Rattle.gr_order.specs.Waiting.{AreSame, Keeps};

use gr_model::event::{Event, ItemId};
use gr_model::memory::Memory;
use gr_windows::windows::Windows;
use std::alloc::Allocator;

/// Keeps a record of a group after those of its item; an end is no item's event.
///
/// # Errors
/// `Memory`: out of memory. Nothing is then kept.
#[inline(always)]
pub(crate) fn keep<A: Allocator + Copy>(
    windows: &mut Windows<A>,
    group: u16,
    event: &Event,
) -> Result<(), Memory>
    requires { HasItem (map length windows.old) (item_of group event.now.item) }
    ensures ok { OnOk result (Keeps windows.old group event.now windows.new) }
    ensures err { OnErr result (windows.new ≡ windows.old) }
{
    if event.kind.is_end() {
        return Ok(());
    }
    let item = event.item;
    windows.push(ItemId { group, item }, event)
}

/// Forgets the record of a group that was kept last.
pub(crate) fn forget<A: Allocator>(windows: &mut Windows<A>, group: u16, event: &Event)
    requires { HasItem (map length windows.old) (item_of group event.now.item) }
    ensures { (before : Table) → Keeps before group event.now windows.old → AreSame before windows.new }
{
    if !event.kind.is_end() {
        let item = event.item;
        windows.pop_last(ItemId { group, item });
    }
}
