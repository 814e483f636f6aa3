//! Why an input of streams or lines is refused, or why a run over it fails.

ghost use Rattle.std.specs.Prelude.{◌≡◌};
ghost use Rattle.gr_record.specs.declared.fault.Fault.TheVariants.{Memory as OutOfMemory};
ghost use Rattle.gr_record.specs.Prelude.{IsOfValues, stream_fault};

use crate::error::RecordError;
use gr_model::memory::Memory;
use gr_model::shape::ShapeError;

/// Why a run over an input fails. Streams are counted from 0, lines from 1.
#[derive(Clone, Copy, Debug, PartialEq, Eq)]
pub enum Fault {
    /// The stream at this place has this fault.
    Stream(u64, RecordError),
    /// The stream at this place is of the same group as an earlier one.
    SameGroup(u64),
    /// The stream at this place is of another launch than the first stream.
    OtherLaunch(u64),
    /// This group has no stream. It is the least such group below the greatest that has one.
    MissingGroup(u16),
    /// The sizes of the groups are no shape.
    Shape(ShapeError),
    /// The line with this number is not one that its place needs.
    BadLine(u64),
    /// The text is over inside a stream.
    NoEnd,
    /// The line with this number is one record more than a stream may have.
    LongStream(u64),
    /// The reader failed.
    Read,
    /// The writer failed.
    Write,
    /// An allocation was refused.
    Memory,
    /// A thread could not be started.
    Threads,
}

impl Fault {
    /// The fault of an input whose stream at this place has this fault. Out of memory is no stream's fault: it is
    /// `Memory`.
    pub fn of_stream(place: u64, error: RecordError) -> Fault
        ensures exact { result ≡ stream_fault place error }
        ensures values { IsOfValues result }
    {
        match error {
            RecordError::Memory => Fault::Memory,
            refused => Fault::Stream(place, refused),
        }
    }
}

impl From<Memory> for Fault {
    ghost from_gives = { λ _ f. f ≡ OutOfMemory };

    fn from(_error: Memory) -> Fault {
        Fault::Memory
    }
}
