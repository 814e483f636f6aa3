//! The threads of the readers, from their start to their end.

ghost use Rattle.std.specs.Prelude.{◌≡◌, ◌≢◌, ◌<◌, ◌≤◌, ◌+◌, ◌^◌, ◌++◌, ◌∷◌, [], List, All, Some};
ghost use Rattle.std.specs.Prelude.{IfOk, IfSome, Result, length, map, vec_capacity, vec_len};
ghost use Rattle.gr_model.specs.declared.event.Event.{Event as AnyEvent};
ghost use Rattle.gr_record.specs.declared.fault.Fault.{Fault as AnyFault};
ghost use Rattle.gr_detector.specs.Runs.{Run};
ghost use Rattle.gr_route.specs.Batches.{all_of};
ghost use Rattle.gr_streams.specs.Records.{and_one};
ghost use Rattle.gr_streams.specs.Sending.{Tells};
ghost use Rattle.gr_streams.specs.Sources.{AreBegun, AreEndsOf, AreLeft, AreOfRun, AreSenders, AreServed, Begun, IsHeaded, IsRoomFor, known_of};

use crate::forward::Ended;
use crate::share::{Share, shares_of};
use crate::source::Source;
use crate::thread::ReaderThread;
use gr_model::limits::FEW_GROUPS;
use gr_model::memory::Memory;
use gr_record::fault::Fault;
use gr_threads::receipt::Receipt;
use gr_threads::sender::Sender;
use std::alloc::Allocator;
use std::io::Read;
use std::sync::atomic::AtomicBool;
use std::sync::{Arc, Wait};
use std::thread::{self, Threads};
use std::time::Clock;

/// The shares of the threads, and room for what is kept later: once the run has started, nothing may be allocated any more.
#[derive(Drop)]
pub(crate) struct Room<T: Read, A: Allocator> {
    pub(crate) shares: Vec<Share<T, A>, A>,
    pub(crate) senders: Vec<Option<Sender<A>>, A>,
    pub(crate) threads: Vec<ReaderThread<T, A>, A>,
    pub(crate) receipts: Vec<Receipt<A>, A>,
}

/// The shares of these streams, with room for them and for the senders of this many groups.
pub(crate) fn room_for<A: Allocator + Copy, T: Read + Drop>(
    alloc: A,
    sources: Vec<Source<T>, A>,
    groups: usize,
) -> Result<Room<T, A>, Memory>
    ensures shares { IfOk result (λ r. all_of r.shares.items ≡ sources.items) }
    ensures senders { IfOk result (λ r. IsRoomFor groups r.senders) }
    ensures threads { IfOk result (λ r. IsRoomFor (vec_len r.shares) r.threads) }
    ensures receipts { IfOk result (λ r. IsRoomFor (vec_len sources) r.receipts) }
{
    let senders = Vec::with_capacity(alloc, groups)?;
    let receipts = Vec::with_capacity(alloc, sources.len())?;
    let shares = shares_of(alloc, sources)?;
    let threads = Vec::with_capacity(alloc, shares.len())?;
    Ok(Room {
        shares,
        senders,
        threads,
        receipts,
    })
}

/// The senders of a run, in the order of its groups. Each can be taken from its place.
/// Requires: there is room.
pub(crate) fn at_places<A: Allocator>(
    senders: Vec<Sender<A>, A>,
    mut places: Vec<Option<Sender<A>>, A>,
) -> Vec<Option<Sender<A>>, A>
    requires { IsRoomFor (vec_len senders) places }
    ensures { result.items ≡ map (λ s. Some s) senders.items }
{
    for sender in senders {
        places.push_reserved(Some(sender));
    }
    places
}

/// How many threads may read at the same time. If there are only a few threads, all may, since a stream may wait for the producer
/// of another; else as many as there are processors.
fn most_readers<R: Threads>(rt: &R, threads: usize) -> usize
    ensures { 0 < result }
{
    if threads <= FEW_GROUPS {
        return FEW_GROUPS;
    }
    match thread::available_parallelism(rt) {
        Ok(processors) => processors.get(),
        Err(_) => 1,
    }
}

/// Waits until fewer than `most` threads read, so that one more may start.
fn make_way<R: Threads, A: Allocator, T: Read>(
    rt: &R,
    threads: &mut Vec<ReaderThread<T, A>, A>,
    most: usize,
)
    requires { 0 < most }
    ensures items { threads.new.items ≡ threads.old.items }
    ensures len { vec_len threads.new ≡ vec_len threads.old }
    ensures capacity { vec_capacity threads.new ≡ vec_capacity threads.old }
{
    if let Some(place) = threads.len().checked_sub(most) {
        threads[place].settle(rt);
    }
}

/// Starts a thread for each share, with the senders for its streams, as soon as enough threads before it have ended.
/// Requires: the streams are of different groups; each has a sender, which has sent nothing; there is room.
pub(crate) fn start_all<R, A, T>(
    rt: R,
    alloc: A,
    shares: Vec<Share<T, A>, A>,
    mut senders: Vec<Option<Sender<A>>, A>,
    mut threads: Vec<ReaderThread<T, A>, A>,
    abandoned: &Arc<AtomicBool, A>,
) -> Vec<ReaderThread<T, A>, A>
where
    R: Threads + Wait + Clock + Copy + Send + 'static,
    A: Allocator + Copy + Send + Sync + Drop + 'static,
    T: Read + Send + Drop + 'static,
    requires headed { All (λ s. IsHeaded s.header s.prefix.items) (all_of shares.items) }
    requires senders { AreServed (map (λ s. s.header) (all_of shares.items)) senders.items }
    requires places { length (all_of shares.items) < 2 ^ 64 }
    requires room { IsRoomFor (vec_len shares) threads }
    ensures begun { AreBegun 0 (map (λ s. s.header) (all_of shares.items)) (map (known_of T.remaining) (all_of shares.items)) (all_of result.items) }
    ensures run { (run : Run) → AreSenders run senders.items → AreOfRun run (all_of result.items) }
{
    let mut place: u64 = 0;
    let most = most_readers(&rt, shares.len());
    for share in shares {
        make_way(&rt, &mut threads, most);
        let (streams, room) = share.with_senders(&mut senders, place);
        place += streams.len() as u64;
        threads.push_reserved(ReaderThread::start(rt, alloc, streams, room, abandoned));
    }
    threads
}

/// The first of two faults; `next` is of a later stream. But `Threads` comes before all others.
fn first_of(first: Option<Fault>, next: Option<Fault>) -> Option<Fault>
    ensures write { IfSome first (λ f. f ≢ Fault.Write) → IfSome next (λ f. f ≢ Fault.Write) → IfSome result (λ f. f ≢ Fault.Write) }
    ensures tells { (lists : Result (List (List AnyEvent)) AnyFault) (list : Result (List AnyEvent) AnyFault) (pushed : List (List AnyEvent)) (more : List AnyEvent) → Tells lists pushed first → Tells list more next → Tells (and_one lists list) (pushed ++ more ∷ []) result }
{
    match (first, next) {
        (_, Some(Fault::Threads)) => next,
        (Some(_), _) => first,
        (None, _) => next,
    }
}

/// Keeps the receipts of further streams. `fault` is the first of the streams before; returns the first of all.
/// Requires: there is room.
fn keep_each<A: Allocator>(
    receipts: &mut Vec<Receipt<A>, A>,
    fault: Option<Fault>,
    ended: Vec<Ended<A>, A>,
) -> Option<Fault>
    requires { vec_len receipts.old + vec_len ended ≤ vec_capacity receipts.old }
    ensures left { (before begun : List Begun) → AreEndsOf begun ended.items → AreLeft before receipts.old.items fault → AreLeft (before ++ begun) receipts.new.items result }
    ensures len { vec_len receipts.new ≡ vec_len receipts.old + vec_len ended }
    ensures capacity { vec_capacity receipts.new ≡ vec_capacity receipts.old }
{
    let mut first = fault;
    for stream in ended {
        let Ended { receipt, fault } = stream;
        receipts.push_reserved(receipt);
        first = first_of(first, fault);
    }
    first
}

/// Joins all threads. Keeps the receipts of their streams, in order, and returns the first fault, if there is one.
/// Requires: there is room for the receipts.
pub(crate) fn join_all<R: Threads, A: Allocator, T: Read>(
    rt: &R,
    threads: Vec<ReaderThread<T, A>, A>,
    receipts: &mut Vec<Receipt<A>, A>,
) -> Option<Fault>
    requires { IsRoomFor (length (all_of threads.items)) receipts.old }
    ensures { AreLeft (all_of threads.items) receipts.new.items result }
{
    let mut fault = None;
    for thread in threads {
        fault = keep_each(receipts, fault, thread.join(rt));
    }
    fault
}
