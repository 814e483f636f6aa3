//! A reader's thread, from its start to its end.

ghost use Rattle.std.specs.Prelude.{◌≡◌, All, map, vec_len};
ghost use Rattle.gr_streams.specs.Sources.{AreEndsOf, IsRoomFor, IsUnread, begun_of};

use crate::forward::Ended;
use crate::reading::read_each;
use crate::source::Unread;
use std::alloc::{Allocator, Global};
use std::io::Read;
use std::marker::Model;
use std::snapshot::Snapshot;
use std::sync::atomic::{AtomicBool, Ordering};
use std::sync::{Arc, Wait};
use std::thread::{Promise, PromisedHandle, Threads};
use std::time::Clock;
use std::{mem, thread};

/// The promise of a reader's thread: its result is what these streams leave.
#[derive(Drop)]
pub(crate) struct OfReader<T, A: Allocator = Global> {
    pub(crate) streams: Snapshot<Vec<Unread<T, A>, A>>,
}

impl<T: Read, A: Allocator> Promise<Vec<Ended<A>, A>> for OfReader<T, A> {
    ghost use Rattle.gr_streams.specs.Sources.{AreEndsOf, begun_by};

    ghost kept_by = { λ p r. AreEndsOf (begun_by T.remaining p) r.items };
}

/// How streams are read.
#[derive(Drop)]
pub(crate) enum ReaderState<T: Read, A: Allocator = Global> {
    /// By a thread.
    Started(PromisedHandle<Vec<Ended<A>, A>, OfReader<T, A>>),
    /// Their reading is over. This is what they leave.
    Over(Vec<Ended<A>, A>),
    /// Their thread is being joined.
    Joining,
}

/// A reader's thread. Contracts see the streams that it reads.
#[derive(Drop)]
pub(crate) struct ReaderThread<T: Read, A: Allocator = Global> {
    begun: Snapshot<OfReader<T, A>>,
    work: ReaderState<T, A>,
}

impl<T: Read, A: Allocator> Model for ReaderThread<T, A> {
    ghost use Rattle.std.specs.Prelude.{List};
    ghost use Rattle.gr_streams.specs.Sources.{Begun, IsStateOf, begun_by};

    ghost Value = { List Begun };

    ghost view = { λ t. begun_by T.remaining t.begun.value };

    ghost invariant = { λ t. IsStateOf T.remaining t.begun.value t.work };
}

impl<T, A> ReaderThread<T, A>
where
    T: Read + Send + Drop + 'static,
    A: Allocator + Copy + Send + Sync + Drop + 'static,
{
    /// Starts a thread that reads streams of which only the headers were read. If it can't be started, the run is abandoned:
    /// these streams are cut, and the reading of the others ends.
    /// Requires: nothing of them was sent; there is room for what they leave.
    pub(crate) fn start<R: Threads + Wait + Clock + Copy + Send + 'static>(
        rt: R,
        alloc: A,
        streams: Vec<Unread<T, A>, A>,
        room: Vec<Ended<A>, A>,
        abandoned: &Arc<AtomicBool, A>,
    ) -> ReaderThread<T, A>
        requires unread { All IsUnread streams.items }
        requires room { IsRoomFor (vec_len streams) room }
        ensures { result ≡ map (begun_of T.remaining) streams.items }
    {
        let promise = OfReader {
            streams: Snapshot::of(&streams),
        };
        let begun = Snapshot::of(&promise);
        let Ok(theirs) = Arc::try_clone(abandoned) else {
            abandoned.store(true, Ordering::SeqCst);
            let work = ReaderState::Over(read_each(&rt, alloc, streams, room, abandoned));
            return ReaderThread { begun, work };
        };
        let read = move || {
            let (streams, room) = (streams, room);
            read_each(&rt, alloc, streams, room, &theirs)
        };
        let work = match thread::spawn_with(&rt, promise, read) {
            Ok(handle) => ReaderState::Started(handle),
            Err(refused) => {
                abandoned.store(true, Ordering::SeqCst);
                ReaderState::Over((refused.value)())
            }
        };
        ReaderThread { begun, work }
    }
}

impl<T: Read, A: Allocator> ReaderThread<T, A> {
    /// Waits until the streams are read. Their thread has then ended too.
    pub(crate) fn settle<R: Threads>(&mut self, rt: &R)
        ensures { self.new ≡ self.old }
    {
        self.work = match mem::replace(&mut self.work, ReaderState::Joining) {
            ReaderState::Started(handle) => ReaderState::Over(handle.join(rt)),
            over => over,
        };
    }

    /// Waits until the streams are read. Returns what they leave.
    pub(crate) fn join<R: Threads>(self, rt: &R) -> Vec<Ended<A>, A>
        ensures { AreEndsOf self result.items }
    {
        let ReaderThread { begun: _, work } = self;
        match work {
            ReaderState::Started(handle) => handle.join(rt),
            ReaderState::Over(ended) => ended,
            ReaderState::Joining => unreachable!(),
        }
    }
}
