//! A barrier instance that all items have passed takes no memory: many take no more growths than a few do, also after a divergent
//! one.

use crate::calls::{is_lawful, shape_of};
use crate::rows::{BARRIER, GLOBAL, event_of};
use gr_model::event::ItemId;
use gr_model::memory::Memory;
use gr_order::schedule::Schedule;
use refusing::growths::{Growths, refuse_each};
use std::alloc::{Allocator, Global};

/// Takes the barriers of two items, with these sites.
fn come<A: Allocator + Copy>(order: &mut Schedule<A>, sites: [u32; 2]) -> Option<()> {
    for item in 0..2_u16 {
        let site = sites[usize::from(item)];
        let event = event_of(&(0, item, BARRIER, GLOBAL, site, &[]));
        if !is_lawful(&event) || order.taken(0) >= 16_777_216 {
            return None;
        }
        order.take(0, event).ok()?;
    }
    Some(())
}

/// Both items come with one site, and meet.
fn meet<A: Allocator + Copy>(order: &mut Schedule<A>) -> Option<()> {
    come(order, [7, 7])?;
    let _instance = order.meet(0).ok()?;
    Some(())
}

/// They come with two sites, and each passes by itself.
fn part<A: Allocator + Copy>(order: &mut Schedule<A>) -> Option<()> {
    come(order, [7, 8])?;
    for item in 0..2 {
        let _event = order.handle(ItemId { group: 0, item }).ok()?;
    }
    Some(())
}

/// Both items part once, or not, and then meet a number of times.
fn go<A: Allocator + Copy>(order: &mut Schedule<A>, is_parted: bool, times: u32) -> Option<()> {
    if is_parted {
        part(order)?;
    }
    for _time in 0..times {
        meet(order)?;
    }
    Some(())
}

/// The same by a new schedule of two items.
fn go_anew<A: Allocator + Copy>(alloc: A, is_parted: bool, times: u32) -> Option<()> {
    let shape = shape_of(alloc, &[2]).ok()?;
    let mut order = Schedule::new(alloc, shape).ok()?;
    go(&mut order, is_parted, times)
}

/// How many growths that takes, each of which can be refused.
fn growths(alloc: Global, is_parted: bool, times: u32) -> Result<Growths, u64> {
    refuse_each(
        alloc,
        1,
        |heap| go_anew(heap, is_parted, times).map(|()| true).ok_or(Memory),
    )
}

#[test]
fn forgotten_instances_take_no_memory(rt: HostRuntime) {
    for is_parted in [false, true] {
        let few = growths(rt.alloc(), is_parted, 9);
        assert!(rt; few.is_ok(), "{few:?}");
        assert_eq!(rt; growths(rt.alloc(), is_parted, 1_000), few);
    }
}
