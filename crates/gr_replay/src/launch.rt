//! The launch of streams.

ghost use Rattle.std.specs.Prelude.{◌≡◌, IfOk, IfErr, IfSome, MatchOption, IsPermutation, map};
ghost use Rattle.gr_record.specs.Prelude.{IsOfReading, IsOfValues};
ghost use Rattle.gr_replay.specs.InMemory.{flats};
ghost use Rattle.gr_intake.specs.Laws.{AreStreams};
ghost use Rattle.gr_intake.specs.Launch.{AreApart, AreRising, ArePlaced, IsLeastMissing, IsLaunchOf, IsLaunchFault, Reads, IsReadFault};

use crate::joined::{Stream, read_streams};
use gr_model::event::Event;
use gr_model::memory::Memory;
use gr_model::shape::Shape;
use gr_model::traces::Traces;
use gr_record::fault::Fault;
use gr_record::input::read_all;
use std::alloc::Allocator;
use std::io::Read;

/// Puts streams of different groups in the order of their groups.
fn order_by_group<A: Allocator>(streams: &mut Vec<Stream<'_>, A>)
    requires { AreApart (flats streams.old.items) }
    ensures same { IsPermutation (flats streams.old.items) (flats streams.new.items) }
    ensures rising { AreRising (flats streams.new.items) }
{
    streams.sort_unstable_by_key(|stream| stream.header.group);
}

/// The first place, of streams in the order of their groups, where the stream is of another group.
fn first_gap(streams: &[Stream<'_>]) -> Option<u16>
    requires { AreRising (flats streams.now) }
    ensures { MatchOption result (ArePlaced (flats streams.now)) (λ g. IsLeastMissing (flats streams.now) g) }
{
    for (place, stream) in streams.iter().enumerate() {
        if usize::from(stream.header.group) != place {
            return Some(place as u16);
        }
    }
    None
}

/// The items of each stream.
fn sizes_of<A: Allocator>(alloc: A, streams: &[Stream<'_>]) -> Result<Vec<u16, A>, Memory>
    ensures { IfOk result (λ v. v.items ≡ map (λ s. s.header.items) streams.now) }
{
    let sizes = streams
        .iter()
        .map(|stream| stream.header.items)
        .collect(alloc)?;
    Ok(sizes)
}

/// The records of each stream.
fn lists_of<A: Allocator + Copy>(
    alloc: A,
    streams: &[Stream<'_>],
) -> Result<Vec<Vec<Event, A>, A>, Memory>
    ensures { IfOk result (λ v. map (λ l. l.items) v.items ≡ map (λ s. s.events) streams.now) }
{
    let mut lists = Vec::new(alloc);
    for stream in streams {
        lists.push(stream.events.read(alloc)?)?;
    }
    Ok(lists)
}

/// The traces of the launch of these streams, in whatever order they came.
///
/// # Errors
/// `MissingGroup` with the least group below the greatest that no stream is of; else `Shape`; `Memory` where a list
/// can't be made.
pub fn traces_of<A: Allocator + Copy>(
    alloc: A,
    streams: Vec<Stream<'_>, A>,
) -> Result<Traces<A>, Fault>
    requires { AreStreams (flats streams.items) }
    ensures launch { IfOk result (λ t. IsLaunchOf (flats streams.entry.items) t) }
    ensures fault { IfErr result (λ f. IsLaunchFault (flats streams.entry.items) f) }
{
    let mut streams = streams;
    order_by_group(&mut streams);
    if let Some(group) = first_gap(&streams) {
        return Err(Fault::MissingGroup(group));
    }
    let sizes = sizes_of(alloc, &streams)?;
    let shape = match Shape::of_launch(sizes) {
        Ok(shape) => shape,
        Err(error) => return Err(Fault::Shape(error)),
    };
    let lists = lists_of(alloc, &streams)?;
    Ok(Traces::new(shape, lists).unwrap())
}

/// Reads streams to the end, one after another, and gives their traces.
///
/// # Errors
/// The first fault of the streams from the left, then `MissingGroup`, then `Shape`; `Read` where the reader fails, or
/// gives no end within 4,294,967,296 calls; `Memory` where a list can't be made.
pub fn read_joined<A: Allocator + Copy, T: Read>(
    alloc: A,
    reader: &mut T,
) -> Result<Traces<A>, Fault>
    ensures launch { IfOk result (λ t. IfSome (T.remaining reader.old) (λ bytes. Reads bytes t)) }
    ensures fault { IfErr result (λ f. IfSome (T.remaining reader.old) (λ bytes. IsReadFault bytes f)) }
    ensures reading { IfErr result IsOfReading }
{
    let bytes = read_all(alloc, reader)?;
    let streams = read_streams(alloc, bytes.as_slice())?;
    traces_of(alloc, streams)
}
