//! From the readers of a launch's streams to the report, in threads.

ghost use Rattle.std.specs.Prelude.{◌≡◌, ◌≢◌, ◌⊎◌, ℕ, List, All, IfErr, IfOk, IfSome, None, Ok, Some, map};
ghost use Rattle.std.specs.Io.KnownBytes.{Appends, Keeps};
ghost use Rattle.gr_record.specs.Prelude.{Fails};
ghost use Rattle.gr_model.specs.Prelude.{IsShape};
ghost use Rattle.gr_replay.specs.Each.{all_known};
ghost use Rattle.gr_report.specs.ReportText.{report_text};
ghost use Rattle.gr_report.specs.Whole.{whole_of};
ghost use Rattle.gr_streams.specs.Headers.{AreApart, AreHeadersOf};
ghost use Rattle.gr_streams.specs.Records.{lists_of};
ghost use Rattle.gr_streams.specs.Sources.{IsHeaded, known_of};
ghost use Rattle.gr_replay.specs.Replays.{IsExactOfEach};
ghost use Rattle.gr_streams.specs.Streams.{IsReportOn, IsRunFault, IsWantOfMemory, WritesPrefixOfEach};

use crate::headers::{Headed, read_headers};
use crate::joins::{Room, at_places, join_all, room_for, start_all};
use crate::source::Source;
use gr_detector::error::{FinishError, StartError};
use gr_detector::start::start;
use gr_model::config::Config;
use gr_model::shape::Shape;
use gr_record::fault::Fault;
use gr_report::report::Report;
use gr_report::write;
use gr_threads::watch::Watch;
use std::alloc::Allocator;
use std::io::{Read, Write};
use std::sync::atomic::AtomicBool;
use std::sync::{Arc, Wait};
use std::thread::Threads;
use std::time::Clock;

/// The report of a run, unless a stream has a fault.
/// Requires: no receipt was missing.
fn judge<A: Allocator>(
    fault: Option<Fault>,
    finished: Result<Report<A>, FinishError<A>>,
) -> Result<Report<A>, Fault>
    requires { IfErr finished IsWantOfMemory }
    ensures report { IfOk result (λ r. (fault ≡ None) × (finished ≡ Ok r)) }
    ensures fault { IfErr result (λ f. (fault ≡ Some f) ⊎ (f ≡ Fault.Memory)) }
{
    match (fault, finished) {
        (Some(fault), _) => Err(fault),
        (None, Ok(report)) => Ok(report),
        (None, Err(FinishError::Memory)) => Err(Fault::Memory),
        (None, Err(FinishError::Receipts(_, _))) => unreachable!(),
    }
}

/// Runs a detector in threads on the streams of a launch of this shape, and gives its report. The headers were read before.
/// Requires: the streams are of different groups, and their headers fit the shape.
///
/// # Errors
/// `Threads` if a thread can't be started; else the fault of the first stream that has one; else `Memory`.
fn run_sources<R, A, T, W>(
    rt: R,
    alloc: A,
    shape: Shape<A>,
    sources: Vec<Source<T>, A>,
    config: Config,
    watch: Arc<W, A>,
) -> Result<Report<A>, Fault>
where
    R: Threads + Wait + Clock + Copy + Send + 'static,
    A: Allocator + Copy + Send + Sync + Drop + 'static,
    T: Read + Send + Drop + 'static,
    W: Watch + Send + Sync + Drop + 'static,
    requires headed { All (λ s. IsHeaded s.header s.prefix.items) sources.items }
    requires apart { AreApart (map (λ s. s.header) sources.items) }
    requires shape { AreHeadersOf (map (λ s. s.header) sources.items) shape }
    requires good { IsShape shape }
    ensures report { IfOk result (λ r. (inputs : List (List ℕ)) → map (known_of T.remaining) sources.items ≡ map (λ x. Some x) inputs → IsReportOn (map (λ s. s.header) sources.items) inputs (whole_of r)) }
    ensures fault { IfErr result (λ f. (inputs : List (List ℕ)) → map (known_of T.remaining) sources.items ≡ map (λ x. Some x) inputs → (f ≡ Fault.Threads) ⊎ Fails f (lists_of inputs)) }
    ensures write { IfErr result (λ f. f ≢ Fault.Write) }
{
    let Room {
        shares,
        senders: places,
        threads,
        mut receipts,
    } = room_for(alloc, sources, shape.groups() as usize)?;
    let Ok(abandoned) = Arc::new(alloc, AtomicBool::new(false)) else {
        return Err(Fault::Memory);
    };
    let (senders, running) = match start(rt, alloc, shape, config, watch) {
        Ok(started) => started,
        Err(StartError::Memory) => return Err(Fault::Memory),
        Err(StartError::Threads) => return Err(Fault::Threads),
    };
    let senders = at_places(senders, places);
    let threads = start_all(rt, alloc, shares, senders, threads, &abandoned);
    let fault = join_all(&rt, threads, &mut receipts);
    judge(fault, running.finish(&rt, receipts))
}

/// Does what `run_streams` does, but gives only the report and writes nothing.
///
/// # Errors
/// Those of `run_streams` but `Write`.
pub fn detect_streams<R, A, T, W>(
    rt: R,
    alloc: A,
    readers: Vec<T, A>,
    config: Config,
    watch: Arc<W, A>,
) -> Result<Report<A>, Fault>
where
    R: Threads + Wait + Clock + Copy + Send + 'static,
    A: Allocator + Copy + Send + Sync + Drop + 'static,
    T: Read + Send + Drop + 'static,
    W: Watch + Send + Sync + Drop + 'static,
    ensures report { IfOk result (λ r. IfSome (all_known (map T.remaining readers.items)) (λ inputs. IsExactOfEach inputs (whole_of r))) }
    ensures fault { IfErr result (λ f. IfSome (all_known (map T.remaining readers.items)) (λ inputs. IsRunFault inputs f)) }
    ensures write { IfErr result (λ f. f ≢ Fault.Write) }
{
    let Headed { headers, sources } = read_headers(alloc, readers)?;
    let shape = headers.shape(alloc)?;
    run_sources(rt, alloc, shape, sources, config, watch)
}

/// Reads the streams of a launch, one from each reader, in threads. Sends them into a run in threads while they come, and
/// writes the text of the report and nothing else. All threads of the run share `watch`.
///
/// # Errors
/// In this order: the fault of the first header that has one, or `SameGroup` or `OtherLaunch`; `MissingGroup`; `Shape`;
/// `Threads` if a thread can't be started; the fault of the first stream whose records have one. `Read` if a reader fails, or
/// has no end after 4,294,967,296 calls; `Memory` if memory runs out. `Write` if the writer fails: it then has a prefix of the
/// text. After any other error nothing is written.
pub fn run_streams<R, A, T, W, O>(
    rt: R,
    alloc: A,
    readers: Vec<T, A>,
    config: Config,
    watch: Arc<W, A>,
    writer: &mut O,
) -> Result<Report<A>, Fault>
where
    R: Threads + Wait + Clock + Copy + Send + 'static,
    A: Allocator + Copy + Send + Sync + Drop + 'static,
    T: Read + Send + Drop + 'static,
    W: Watch + Send + Sync + Drop + 'static,
    O: Write,
    ensures report { IfOk result (λ r. IfSome (all_known (map T.remaining readers.items)) (λ inputs. IsExactOfEach inputs (whole_of r))) }
    ensures text { IfOk result (λ r. Appends (O.contents writer.old) (O.contents writer.new) (report_text (whole_of r))) }
    ensures fault { IfErr result (λ f. IfSome (all_known (map T.remaining readers.items)) (λ inputs. IsRunFault inputs f)) }

    // What the writer has after an error.
    ensures untouched { IfErr result (λ f. f ≢ Fault.Write → Keeps (O.contents writer.old) (O.contents writer.new)) }
    ensures prefix { IfErr result (λ f. f ≡ Fault.Write → IfSome (all_known (map T.remaining readers.items)) (λ inputs. WritesPrefixOfEach inputs (O.contents writer.old) (O.contents writer.new))) }
{
    let report = detect_streams(rt, alloc, readers, config, watch)?;
    match write(&report, writer) {
        Ok(()) => Ok(report),
        Err(_) => Err(Fault::Write),
    }
}
