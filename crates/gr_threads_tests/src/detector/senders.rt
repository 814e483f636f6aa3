//! Senders of plain accesses.

ghost use Rattle.std.specs.Prelude.{IfSome};
ghost use Rattle.gr_threads_tests.specs.Senders.{IsReceiptOf, IsSameSender};

use crate::route::three_senders::write;
use gr_model::event::{Event, Kind};
use gr_threads::receipt::Receipt;
use gr_threads::sender::Sender;
use std::alloc::Allocator;
use std::sync::Wait;
use std::thread::{Threads, join};
use std::time::Clock;

/// A plain access of a global word by an item.
pub fn plain(item: u16, kind: Kind, word: u32) -> Event {
    Event {
        item,
        kind,
        ..write(word)
    }
}

/// Sends an event, and waits until there is room. Gives whether it was sent.
pub fn sends<R: Wait + Clock, A: Allocator>(rt: &R, sender: &mut Sender<A>, event: Event) -> bool
    ensures { IsSameSender sender.old sender.new }
{
    sender.send_wait(rt, event).is_ok()
}

/// Closes a sender, and gives its receipt. `None` if it was closed before.
pub fn close<R: Wait + Clock, A: Allocator>(rt: &R, mut sender: Sender<A>) -> Option<Receipt<A>>
    ensures { IfSome result (IsReceiptOf sender) }
{
    sender.close_wait(rt, false).ok()?;
    sender.into_receipt().ok()
}

/// Sends plain accesses of so many global words by item 0, and the end. `None` if the sender refused one of them.
pub fn send_all<R: Wait + Clock, A: Allocator>(
    rt: &R,
    mut sender: Sender<A>,
    kind: Kind,
    first: u32,
    count: u32,
) -> Option<Receipt<A>>
    ensures { IfSome result (IsReceiptOf sender) }
{
    for place in 0..count {
        if !sends(rt, &mut sender, plain(0, kind, first.wrapping_add(place))) {
            return None;
        }
    }
    close(rt, sender)
}

/// Sends on two threads: writes of the words 0 to 99 by one sender, and reads of the words 50 to 148 by the other.
pub fn send_both<R: Threads + Wait + Clock + Sync, A: Allocator + Send + Sync>(
    rt: &R,
    first: Sender<A>,
    second: Sender<A>,
) -> (Option<Receipt<A>>, Option<Receipt<A>>)
    ensures first { IfSome result.0 (IsReceiptOf first) }
    ensures second { IfSome result.1 (IsReceiptOf second) }
{
    join(
        rt,
        || send_all(rt, first, Kind::Write, 0, 100),
        || send_all(rt, second, Kind::Read, 50, 99),
    )
}
