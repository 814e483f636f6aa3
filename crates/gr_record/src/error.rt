//! Why one stream is refused: the first fault from the left.

ghost use Rattle.std.specs.Prelude.{◌≡◌};
ghost use Rattle.gr_record.specs.declared.error.RecordError.TheVariants.{Memory as OutOfMemory};

use gr_model::memory::Memory;
use std::alloc::{AllocError, AllocFailed};
use thiserror::Error;

/// The first fault of a stream. Of a header `BadMagic` comes before `BadHeader`; of a whole record `TooManyRecords`
/// comes first, then `BadKind`, `BadField` with the least such byte, `BadOrder`, `BadName` and `UnknownItem`.
#[derive(Clone, Copy, Debug, PartialEq, Eq, Error)]
pub enum RecordError {
    /// The stream does not begin with the four bytes `GRT1` or `GRT2`.
    #[error("bad magic")]
    BadMagic,
    /// The header's group or its number of items is out of range.
    #[error("bad header")]
    BadHeader,
    /// Byte 0 of the record is no kind.
    #[error("bad kind")]
    BadKind,
    /// The place of the first byte, of the record's bytes 1 to 11, that may not have its value.
    #[error("bad field {0}")]
    BadField(u8),
    /// The record is a load that releases, or a store that acquires.
    #[error("bad order")]
    BadOrder,
    /// The record has a name that is out of range, names that are not in strictly ascending order, a name after a place
    /// that is not used, or a name though it is no acquire.
    #[error("bad name")]
    BadName,
    /// The record's item is not below the number of items of the header.
    #[error("unknown item")]
    UnknownItem,
    /// There are bytes after the end.
    #[error("after end")]
    AfterEnd,
    /// The bytes are over before the end of the stream.
    #[error("truncated")]
    Truncated,
    /// There is one record more than the stream may have.
    #[error("too many records")]
    TooManyRecords,
    /// An allocation was refused.
    #[error("out of memory")]
    Memory,
}

impl From<Memory> for RecordError {
    ghost from_gives = { λ _ e. e ≡ OutOfMemory };

    fn from(_error: Memory) -> RecordError {
        RecordError::Memory
    }
}

impl From<AllocError> for RecordError {
    ghost from_gives = { λ _ e. e ≡ OutOfMemory };

    fn from(_error: AllocError) -> RecordError {
        RecordError::Memory
    }
}

impl<T: Drop> From<AllocFailed<T>> for RecordError {
    ghost from_gives = { λ _ e. e ≡ OutOfMemory };

    fn from(_error: AllocFailed<T>) -> RecordError {
        RecordError::Memory
    }
}
