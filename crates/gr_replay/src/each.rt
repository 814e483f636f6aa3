//! The streams of a launch that come from a reader each.

ghost use Rattle.std.specs.Prelude.{◌≡◌, ◌++◌, ◌∷◌, [], IfErr, IfOk, IfSome, OnOk, map};
ghost use Rattle.gr_record.specs.Prelude.{IsOfReading, IsOfValues, Gives, IsOutside};
ghost use Rattle.gr_replay.specs.Each.{AreRead, IsEachFault, ReadsEach, all_known, each_of, inputs_of, only_stream_at};
ghost use Rattle.gr_replay.specs.InMemory.{flat, flats};
ghost use Rattle.gr_intake.specs.Intakes.{AreSeen, MayFollow};
ghost use Rattle.gr_intake.specs.Joined.{headers_in};
ghost use Rattle.gr_intake.specs.Laws.{AreStreams};

use crate::joined::{Stream, keep, read_stream};
use crate::launch::traces_of;
use gr_model::growing::GrowingShape;
use gr_model::memory::Memory;
use gr_model::traces::Traces;
use gr_record::error::RecordError;
use gr_record::fault::Fault;
use gr_record::input::read_all;
use std::alloc::Allocator;
use std::io::Read;

/// Keeps the bytes of one more reader.
fn keep_input<A: Allocator>(
    inputs: &mut Vec<Vec<u8, A>, A>,
    input: Vec<u8, A>,
) -> Result<(), Memory>
    ensures { OnOk result (inputs.new.items ≡ inputs.old.items ++ input ∷ []) }
{
    inputs.push(input)?;
    Ok(())
}

/// Reads each reader to its end, in their order.
///
/// # Errors
/// `Read` where a reader fails, or gives no end within 4,294,967,296 calls; `Memory` where a list can't be made.
pub fn read_inputs<A: Allocator + Copy, T: Read + Drop>(
    alloc: A,
    readers: Vec<T, A>,
) -> Result<Vec<Vec<u8, A>, A>, Fault>
    ensures bytes { IfOk result (λ v. AreRead (map T.remaining readers.items) (inputs_of v.items)) }
    ensures faults { IfErr result IsOutside }
{
    let mut inputs = Vec::new(alloc);
    for reader in readers {
        let mut reader = reader;
        let input = read_all(alloc, &mut reader)?;
        keep_input(&mut inputs, input)?;
    }
    Ok(inputs)
}

/// The stream that the bytes are, after these streams, whose groups have these sizes.
#[tactic(auto, unfolding(crate::specs::Each::only_stream_at))]
fn read_only_stream<'a, A: Allocator>(
    streams: &[Stream<'a>],
    groups: &GrowingShape<A>,
    bytes: &'a [u8],
) -> Result<Stream<'a>, Fault>
    requires seen { AreSeen groups.now (headers_in (flats streams.now)) }
    ensures exact { Gives flat result (only_stream_at (flats streams.now) bytes.now) }
    ensures follows { IfOk result (λ s. MayFollow (headers_in (flats streams.now)) s.header) }
    ensures good { AreStreams (flats streams.now) → IfOk result (λ s. AreStreams (flats streams.now ++ flat s ∷ [])) }
    ensures values { IfErr result IsOfValues }
{
    let (stream, rest) = read_stream(streams, groups, bytes)?;
    if rest.is_empty() {
        Ok(stream)
    } else {
        Err(Fault::Stream(streams.len() as u64, RecordError::AfterEnd))
    }
}

/// The streams of these inputs, one in each, in their order.
///
/// # Errors
/// The first fault of the streams from the left, `AfterEnd` where bytes follow a stream's end; `Memory` where the streams
/// can't be kept.
pub fn read_only_streams<'a, A: Allocator + Copy>(
    alloc: A,
    inputs: &'a [Vec<u8, A>],
) -> Result<Vec<Stream<'a>, A>, Fault>
    ensures exact { Gives (λ v. flats v.items) result (each_of (inputs_of inputs.now)) }
    ensures good { IfOk result (λ v. AreStreams (flats v.items)) }
    ensures values { IfErr result IsOfValues }
{
    let mut streams = Vec::new(alloc);
    let mut groups = GrowingShape::new(alloc);
    for input in inputs {
        let stream = read_only_stream(&streams, &groups, input)?;
        groups = keep(&mut streams, groups, stream)?;
    }
    Ok(streams)
}

/// Reads each reader to its end, one stream each, and gives the traces of their launch.
///
/// # Errors
/// The first fault of the streams from the left, `AfterEnd` where bytes follow a stream's end; then
/// `MissingGroup`, then `Shape`. `Read` where a reader fails, or gives no end within 4,294,967,296 calls; `Memory` where a
/// list can't be made. These two can come before a fault of the streams.
pub fn read_each<A: Allocator + Copy, T: Read + Drop>(
    alloc: A,
    readers: Vec<T, A>,
) -> Result<Traces<A>, Fault>
    ensures launch { IfOk result (λ t. IfSome (all_known (map T.remaining readers.items)) (λ inputs. ReadsEach inputs t)) }
    ensures fault { IfErr result (λ f. IfSome (all_known (map T.remaining readers.items)) (λ inputs. IsEachFault inputs f)) }
    ensures reading { IfErr result IsOfReading }
{
    let inputs = read_inputs(alloc, readers)?;
    let streams = read_only_streams(alloc, inputs.as_slice())?;
    traces_of(alloc, streams)
}
