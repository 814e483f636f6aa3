//! Streams that follow one another in a list of bytes.

ghost use Rattle.std.specs.Prelude.{◌≡◌, ◌++◌, ◌∷◌, [], IfErr, IfOk, OnOk};
ghost use Rattle.gr_record.specs.Prelude.{IsOfValues, Gives};
ghost use Rattle.gr_intake.specs.Intakes.{AreSeen, MayFollow};
ghost use Rattle.gr_intake.specs.Laws.{AreStreams};
ghost use Rattle.gr_intake.specs.Joined.{headers_in, stream_at, joined_of};
ghost use Rattle.gr_replay.specs.InMemory.{flat, flats};

use crate::records::Records;
use gr_intake::headers::read_header_after;
use gr_model::growing::GrowingShape;
use gr_model::memory::Memory;
use gr_record::fault::Fault;
use gr_record::header::Header;
use std::alloc::Allocator;

/// One stream: its header, and its records up to the end.
#[derive(Debug, Drop)]
pub struct Stream<'a> {
    pub header: Header,
    pub events: Records<'a>,
}

/// The stream at the front of the bytes, after these streams, whose groups have these sizes; and the bytes after it.
pub(crate) fn read_stream<'a, A: Allocator>(
    streams: &[Stream<'a>],
    groups: &GrowingShape<A>,
    bytes: &'a [u8],
) -> Result<(Stream<'a>, &'a [u8]), Fault>
    requires seen { AreSeen groups.now (headers_in (flats streams.now)) }
    ensures exact { Gives (λ x. (flat x.0, x.1.now)) result (stream_at (flats streams.now) bytes.now) }
    ensures follows { IfOk result (λ x. MayFollow (headers_in (flats streams.now)) x.0.header) }
    ensures values { IfErr result IsOfValues }
{
    let place = streams.len() as u64;
    let first = streams.first().map(|stream| stream.header);
    let (header, rest) = read_header_after(place, groups, first, bytes)?;
    match Records::find(header, rest) {
        Ok((events, rest)) => Ok((Stream { header, events }, rest)),
        Err(error) => Err(Fault::of_stream(place, error)),
    }
}

/// Keeps one more stream, which may follow these, and gives the sizes of all groups.
pub(crate) fn keep<'a, A: Allocator>(
    streams: &mut Vec<Stream<'a>, A>,
    groups: GrowingShape<A>,
    stream: Stream<'a>,
) -> Result<GrowingShape<A>, Memory>
    requires seen { AreSeen groups (headers_in (flats streams.old.items)) }
    requires follows { MayFollow (headers_in (flats streams.old.items)) stream.header }
    ensures kept { OnOk result (streams.new.items ≡ streams.old.items ++ stream.entry ∷ []) }
    ensures seen { IfOk result (λ g. AreSeen g (headers_in (flats streams.new.items))) }
{
    let Header { group, items, .. } = stream.header;
    streams.push(stream)?;
    groups.with_group(group, items)
}

/// The streams in the bytes, in their order.
///
/// # Errors
/// The first fault from the left: of a stream its header's, `SameGroup`, `OtherLaunch`, then that of its records;
/// `Memory` where the streams can't be kept.
pub fn read_streams<'a, A: Allocator + Copy>(
    alloc: A,
    bytes: &'a [u8],
) -> Result<Vec<Stream<'a>, A>, Fault>
    ensures exact { Gives (λ v. flats v.items) result (joined_of bytes.now) }
    ensures good { IfOk result (λ v. AreStreams (flats v.items)) }
    ensures values { IfErr result IsOfValues }
{
    let mut streams = Vec::new(alloc);
    let mut groups = GrowingShape::new(alloc);
    let mut rest = bytes;
    for _ in 0..bytes.len() {
        if rest.is_empty() {
            return Ok(streams);
        }
        let (stream, after) = read_stream(&streams, &groups, rest)?;
        groups = keep(&mut streams, groups, stream)?;
        rest = after;
    }
    Ok(streams)
}
