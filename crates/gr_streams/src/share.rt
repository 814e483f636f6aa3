//! The shares of the readers' threads. A thread reads the streams of its share one after the other.

ghost use Rattle.std.specs.Prelude.{◌≡◌, ◌<◌, ◌+◌, ◌^◌, ◌++◌, ◌∷◌, [], ℕ, List, All, IfOk, None, OnOk, Some, length, map, slice_index_or, slice_set, vec_len};
ghost use Rattle.gr_detector.specs.Runs.{Run};
ghost use Rattle.gr_record.specs.declared.header.Header.{Header as AnyHeader};
ghost use Rattle.gr_route.specs.Batches.{all_of};
ghost use Rattle.gr_threads.specs.Senders.{Sending};
ghost use Rattle.gr_streams.specs.Sources.{AreBegun, AreOfRun, AreSenders, AreServed, HasSender, IsHeaded, IsRoomFor, IsUnread, begun_of, known_of};

use crate::forward::Ended;
use crate::source::{Source, Unread};
use gr_model::limits::FEW_GROUPS;
use gr_model::memory::Memory;
use gr_threads::sender::Sender;
use std::alloc::{Allocator, Global};
use std::io::Read;
use std::marker::Model;
use std::mem;

/// How many streams of a large launch a thread reads.
const STREAMS_OF_A_SHARE: usize = 16;

/// The streams that a thread reads, with room for them and their senders, and for what they leave. Contracts see the streams.
#[derive(Drop)]
pub(crate) struct Share<T, A: Allocator = Global> {
    sources: Vec<Source<T>, A>,
    unread: Vec<Unread<T, A>, A>,
    ended: Vec<Ended<A>, A>,
}

impl<T, A: Allocator> Model for Share<T, A> {
    ghost use Rattle.std.specs.Prelude.{List, vec_len};
    ghost use Rattle.gr_streams.specs.declared.source.Source.{Source};
    ghost use Rattle.gr_streams.specs.Sources.{IsRoomFor};

    ghost Value = { List (Source T) };

    ghost view = { λ s. s.sources.items };

    ghost invariant = { λ s. IsRoomFor (vec_len s.sources) s.unread × IsRoomFor (vec_len s.sources) s.ended };
}

/// Takes the sender of a group from its place.
/// Requires: it is there.
fn take_sender<A: Allocator>(senders: &mut Vec<Option<Sender<A>>, A>, group: u16) -> Sender<A>
    requires { HasSender senders.old.items group }
    ensures there { slice_index_or senders.old.items group None ≡ Some result }
    ensures taken { senders.new.items ≡ slice_set senders.old.items group None }
{
    match senders[group as usize].take() {
        Some(sender) => sender,
        None => unreachable!(),
    }
}

impl<T: Read + Drop, A: Allocator> Share<T, A> {
    /// The streams with the senders of their groups, which are taken from their places, and room for what the streams leave. The
    /// first stream has this place.
    /// Requires: the streams are of different groups; each has a sender, which has sent nothing.
    pub(crate) fn with_senders(
        self,
        senders: &mut Vec<Option<Sender<A>>, A>,
        mut place: u64,
    ) -> (Vec<Unread<T, A>, A>, Vec<Ended<A>, A>)
        requires headed { All (λ s. IsHeaded s.header s.prefix.items) self }
        requires senders { AreServed (map (λ s. s.header) self) senders.old.items }
        requires places { place + length self < 2 ^ 64 }
        ensures unread { All IsUnread result.0.items }
        ensures begun { AreBegun place (map (λ s. s.header) self) (map (known_of T.remaining) self) (map (begun_of T.remaining) result.0.items) }
        ensures run { (run : Run) → AreSenders run senders.old.items → AreOfRun run (map (begun_of T.remaining) result.0.items) }
        ensures left { (more : List AnyHeader) → AreServed (map (λ s. s.header) self ++ more) senders.old.items → AreServed more senders.new.items }
        ensures fewer { (g : ℕ) (s : Sending) → slice_index_or senders.new.items g None ≡ Some s → slice_index_or senders.old.items g None ≡ Some s }
        ensures count { vec_len result.0 ≡ length self }
        ensures room { IsRoomFor (vec_len result.0) result.1 }
    {
        let mut unread = self.unread;
        for source in self.sources {
            let sender = take_sender(senders, source.header.group);
            unread.push_reserved(Unread {
                place,
                source,
                sender,
            });
            place += 1;
        }
        (unread, self.ended)
    }
}

/// Adds the share of these streams.
fn add<T: Drop, A: Allocator + Copy>(
    alloc: A,
    shares: &mut Vec<Share<T, A>, A>,
    sources: Vec<Source<T>, A>,
) -> Result<(), Memory>
    ensures { OnOk result (shares.new.items ≡ shares.old.items ++ sources.items ∷ []) }
{
    let unread = Vec::with_capacity(alloc, sources.len())?;
    let ended = Vec::with_capacity(alloc, sources.len())?;
    shares.push(Share {
        sources,
        unread,
        ended,
    })?;
    Ok(())
}

/// The shares of a launch's streams. In a small launch each stream has its own, since it may wait for the producer of another.
pub(crate) fn shares_of<T: Drop, A: Allocator + Copy>(
    alloc: A,
    sources: Vec<Source<T>, A>,
) -> Result<Vec<Share<T, A>, A>, Memory>
    ensures { IfOk result (λ shares. all_of shares.items ≡ sources.items) }
{
    let most = if sources.len() <= FEW_GROUPS {
        1
    } else {
        STREAMS_OF_A_SHARE
    };
    let mut shares = Vec::new(alloc);
    let mut next = Vec::new(alloc);
    for source in sources {
        if next.len() >= most {
            add(alloc, &mut shares, mem::replace(&mut next, Vec::new(alloc)))?;
        }
        next.push(source)?;
    }
    add(alloc, &mut shares, next)?;
    Ok(shares)
}
