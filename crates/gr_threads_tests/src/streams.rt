//! A launch whose race is seen while its stream is still being read, or of which each growth is refused in turn; and no stream at all.

use crate::detector::counts::Counts;
use crate::detector::gates::came;
use gr_detector::Watch;
use gr_model::config::Config;
use gr_model::memory::Memory;
use gr_model::shape::ShapeError;
use gr_record::fault::Fault;
use gr_streams::{NoWatch, run_streams};
use gr_text::packing::pack_text;
use refusing::Refusing;
use std::alloc::{Allocator, Global};
use std::io::{self, ErrorKind, Read, Write};
use std::sync::atomic::Ordering;
use std::sync::{Arc, Wait};
use std::test::*;
use std::thread::Threads;
use std::time::Clock;

/// A write and a read of two items.
const RACE: &str = "group 0 items 2 launch 7\n0 w g 16\n1 r g 16\nend\n";

const REPORT: &str =
    "gpurace 1\ngroups 1 items 2 records 3\nrace global 16\nend races 1 diverge 0 unmatched 0 held 0\n";

/// A reader that gives a byte at a call. It gives the byte at the gate only after a race was seen, and fails if none is.
#[derive(Drop)]
struct Gated {
    bytes: Vec<u8>,
    place: usize,
    gate: usize,
    counts: Arc<Counts>,
}

impl Read for Gated {
    fn read(&mut self, buf: &mut [u8]) -> io::Result<usize> {
        if self.place == self.gate && !came(&self.counts.races, 1) {
            return Err(io::Error::from(ErrorKind::TimedOut));
        }
        let (Some(place), Some(byte)) = (buf.first_mut(), self.bytes.get(self.place)) else {
            return Ok(0);
        };
        *place = *byte;
        self.place = self.place.saturating_add(1);
        Ok(1)
    }
}

/// The fault of a run over inputs, one stream in each, if there is one. The run has a worker, and a queue of one place.
fn fault_of<
    R: Threads + Wait + Clock + Copy + Send + 'static,
    W: Watch + Send + Sync + Drop + 'static,
    O: Write,
>(
    rt: R,
    alloc: Global,
    inputs: Vec<Gated>,
    watch: Arc<W>,
    writer: &mut O,
) -> Result<Option<Fault>, Fail> {
    let config = Config::new(1, 1, 1).map_err(|_| "no configuration")?;
    Ok(run_streams(rt, alloc, inputs, config, watch, writer).err())
}

/// Whether a run over the race is accepted whose end is read only after the race was seen, and writes its report.
fn is_gated_race_reported<R: Threads + Wait + Clock + Copy + Send + 'static>(
    rt: R,
    alloc: Global,
    counts: &Arc<Counts>,
) -> Result<bool, Fail> {
    let input = Gated {
        bytes: pack_text(alloc, RACE.as_bytes()).map_err(|_| "not packed")?,
        place: 0,
        gate: 52,
        counts: Arc::try_clone(counts)?,
    };
    let inputs = vec![in alloc; input]?;
    let mut text = Vec::new(alloc);
    let fault = fault_of(rt, alloc, inputs, Arc::try_clone(counts)?, &mut text)?;
    Ok(fault.is_none() && text.as_slice() == REPORT.as_bytes())
}

#[test]
fn a_race_is_seen_before_its_stream_is_read_to_the_end(rt: HostRuntime) -> Result<(), Fail> {
    let counts = Arc::new(rt.alloc(), Counts::default())?;
    assert!(rt;
        is_gated_race_reported(rt, rt.alloc(), &counts)?,
        "the race"
    );
    assert_eq!(rt; counts.races.load(Ordering::SeqCst), 1);
    Ok(())
}

/// Whether a run over the race writes its report, or memory runs out with nothing written. Its threads have then dropped the watch.
fn is_race_reported<
    R: Threads + Wait + Clock + Copy + Send + 'static,
    A: Allocator + Copy + Send + Sync + Drop + 'static,
>(rt: R, alloc: Global, heap: A) -> Result<bool, Memory> {
    let input = Gated {
        bytes: pack_text(alloc, RACE.as_bytes()).map_err(|_| Memory)?,
        place: 0,
        gate: usize::MAX,
        counts: Arc::new(alloc, Counts::default())?,
    };
    let inputs = vec![in heap; input]?;
    let watch = Arc::new(heap, Counts::default())?;
    let theirs = Arc::try_clone(&watch)?;
    let config = Config::new(1, 1, 1).map_err(|_| Memory)?;
    let mut text = Vec::new(alloc);
    let answer = run_streams(rt, heap, inputs, config, theirs, &mut text);
    let is_free = Arc::strong_count(&watch) == 1;
    match answer {
        Ok(_) => Ok(is_free && text.as_slice() == REPORT.as_bytes()),
        Err(Fault::Memory) if is_free && text.is_empty() => Err(Memory),
        Err(_) => Ok(false),
    }
}

#[test]
fn each_refused_growth_is_want_of_memory(rt: HostRuntime) -> Result<(), Fail> {
    for at in 0..10_000_u64 {
        let heap = Box::new(rt.alloc(), Refusing::new(rt.alloc(), at))?;
        let heap: &'static Refusing<Global> = Box::leak(heap);
        let is_due = is_race_reported(rt, rt.alloc(), heap).unwrap_or(heap.refused());
        assert!(rt; is_due, "the growth numbered {at}");
        if !heap.refused() {
            assert!(rt; at > 20, "readers, queues and clocks grow");
            return Ok(());
        }
    }
    Err("a growth was refused each time")?
}

#[test]
fn no_stream_is_no_launch(rt: HostRuntime) -> Result<(), Fail> {
    let alloc = rt.alloc();
    let mut text = Vec::new(alloc);
    let watch = Arc::new(alloc, NoWatch)?;
    let fault = fault_of(rt, alloc, Vec::new(alloc), watch, &mut text)?;
    assert_eq!(rt; fault, Some(Fault::Shape(ShapeError::NoGroups)));
    assert!(rt; text.is_empty());
    Ok(())
}
