//! Each growth of a run is refused in turn. The answer is then `Memory`, or the report.

use crate::detector::counts::Counts;
use crate::detector::runs::Ended;
use crate::detector::tests::two_senders::run_two;
use gr_model::memory::Memory;
use refusing::Refusing;
use std::alloc::{Allocator, Global};
use std::sync::{Arc, Wait};
use std::test::*;
use std::thread::Threads;
use std::time::Clock;

/// Whether the report of the two senders is right, or memory ran out, in the run or before its start. All records are taken in a run that
/// was started, and its threads have dropped the watch.
fn is_reported<
    R: Threads + Wait + Clock + Copy + Send + Sync + 'static,
    A: Allocator + Copy + Send + Sync + Drop + 'static,
>(rt: R, heap: A) -> Result<bool, Memory> {
    let watch = Arc::new(heap, Counts::default())?;
    let answer = run_two(rt, heap, Arc::try_clone(&watch)?);
    let is_free = Arc::strong_count(&watch) == 1;
    let [first, second, ..] = watch.all();
    match (answer, first, second, is_free) {
        (Ok(is_of_two), 101, 100, true) => Ok(is_of_two),
        (Err(Ended::NotStarted), 0, 0, true) | (Err(Ended::Memory), 101, 100, true) => Err(Memory),
        _ => Ok(false),
    }
}

#[test]
fn each_refused_growth_is_want_of_memory(rt: HostRuntime) -> Result<(), Fail> {
    for at in 0..10_000_u64 {
        let heap = Box::new(rt.alloc(), Refusing::new(rt.alloc(), at))?;
        let heap: &'static Refusing<Global> = Box::leak(heap);
        let is_due = is_reported(rt, heap).unwrap_or(heap.refused());
        assert!(rt; is_due, "the growth numbered {at}");
        if !heap.refused() {
            assert!(rt; at > 20, "queues, clocks and shadows grow");
            return Ok(());
        }
    }
    Err("a growth was refused each time")?
}
