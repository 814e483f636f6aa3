//! Streams are read, and sent while they are read.

ghost use Rattle.std.specs.Prelude.{◌≡◌, ◌≢◌, ◌++◌, ℕ, List, All, IfSome, map, take, vec_len};
ghost use Rattle.gr_record.specs.declared.header.Header.{Header as AnyHeader};
ghost use Rattle.gr_record.specs.declared.layout.TheConstants.{HEADER_LENGTH};
ghost use Rattle.gr_streams.specs.Records.{events_at};
ghost use Rattle.gr_streams.specs.Sending.{IsFed, Tells};
ghost use Rattle.gr_streams.specs.Sources.{AreEndsOf, IsHeaded, IsRoomFor, IsUnread, begun_of, known_of};

use crate::forward::{Ended, Forward};
use crate::source::Unread;
use gr_record::fault::Fault;
use std::alloc::Allocator;
use std::io::Read;
use std::sync::atomic::{AtomicBool, Ordering};
use std::sync::{Arc, Wait};
use std::time::Clock;

/// How often a reader is asked for bytes at most.
const MOST_READS: u64 = 4_294_967_296;

/// How many bytes are asked for at once.
const PIECE_LENGTH: usize = 16_384;

/// Reads the rest of the stream at a place, and sends its events as they come. What was read before is already on its way.
/// This ends at the end of the reader, or at the first fault, or as soon as the run was abandoned.
fn read_rest<R: Wait + Clock, A: Allocator + Copy, T: Read>(
    rt: &R,
    place: u64,
    reader: &mut T,
    mut forward: Forward<A>,
    abandoned: &Arc<AtomicBool, A>,
) -> Ended<A>
    ensures group { result.receipt.group ≡ forward.sender.group }
    ensures queue { result.receipt.queue ≡ forward.sender.queue.queue }
    ensures write { IfSome result.fault (λ f. f ≢ Fault.Write) }
    ensures tells { (fed : List ℕ) (h : AnyHeader) → IsHeaded h (take HEADER_LENGTH fed) → forward.sender.items ≡ h.items → IsFed fed forward.decoder forward.sender forward.refused → IfSome (T.remaining reader.old) (λ rest. Tells (events_at place (fed ++ rest)) result.receipt.pushed result.fault) }
{
    let mut piece = [0u8; PIECE_LENGTH];
    for _ in 0..MOST_READS {
        if abandoned.load(Ordering::SeqCst) {
            return forward.fail(rt, Fault::Threads);
        }
        match reader.read(&mut piece) {
            Err(_) => return forward.fail(rt, Fault::Read),
            Ok(0) => return forward.finish(rt, place),
            Ok(count) => {
                if let Err(error) = forward.take(rt, &piece[..count]) {
                    return forward.fail(rt, Fault::of_stream(place, error));
                }
                forward.sender.let_others_catch_up(rt);
            }
        }
    }
    forward.fail(rt, Fault::Read)
}

/// Reads a stream of which only the header was read, and sends its events as they come.
/// Requires: nothing of it was sent.
pub(crate) fn read_on<R: Wait + Clock, A: Allocator + Copy, T: Read + Drop>(
    rt: &R,
    alloc: A,
    stream: Unread<T, A>,
    abandoned: &Arc<AtomicBool, A>,
) -> Ended<A>
    requires { IsUnread stream }
    ensures group { result.receipt.group ≡ stream.sender.group }
    ensures queue { result.receipt.queue ≡ stream.sender.queue.queue }
    ensures write { IfSome result.fault (λ f. f ≢ Fault.Write) }
    ensures tells { IfSome (known_of T.remaining stream.source) (λ bytes. Tells (events_at stream.place bytes) result.receipt.pushed result.fault) }
{
    let Unread {
        place,
        source,
        sender,
    } = stream;
    let mut reader = source.reader;
    let mut forward = Forward::new(alloc, sender);
    if let Err(error) = forward.take(rt, source.prefix.as_slice()) {
        return forward.fail(rt, Fault::of_stream(place, error));
    }
    read_rest(rt, place, &mut reader, forward, abandoned)
}

/// Reads streams of which only the headers were read, one after the other. Returns what each leaves, in order.
/// Requires: nothing of them was sent; there is room for what they leave.
pub(crate) fn read_each<R: Wait + Clock, A: Allocator + Copy, T: Read + Drop>(
    rt: &R,
    alloc: A,
    streams: Vec<Unread<T, A>, A>,
    room: Vec<Ended<A>, A>,
    abandoned: &Arc<AtomicBool, A>,
) -> Vec<Ended<A>, A>
    requires unread { All IsUnread streams.items }
    requires room { IsRoomFor (vec_len streams) room }
    ensures { AreEndsOf (map (begun_of T.remaining) streams.items) result.items }
{
    let mut ended = room;
    for stream in streams {
        ended.push_reserved(read_on(rt, alloc, stream, abandoned));
    }
    ended
}
