//! Why a record is not taken.

ghost use Rattle.std.specs.Prelude.{◌≡◌};
ghost use Rattle.gr_lanes.specs.declared.seq_error.SeqError.TheVariants.{Memory as OutOfMemory};

use gr_model::memory::Memory;
use std::alloc::AllocError;
use thiserror::Error;

/// Why a record is not taken: the first of these causes that holds.
#[derive(Clone, Copy, Debug, PartialEq, Eq, Error)]
pub enum SeqError {
    #[error("no such group")]
    UnknownGroup,
    #[error("a record behind the end of group {0}")]
    AfterEnd(u16),
    #[error("no such item")]
    UnknownItem,
    #[error("out of memory")]
    Memory,
}

impl From<Memory> for SeqError {
    ghost from_gives = { λ _ e. e ≡ OutOfMemory };

    fn from(_error: Memory) -> SeqError {
        SeqError::Memory
    }
}

impl From<AllocError> for SeqError {
    ghost from_gives = { λ _ e. e ≡ OutOfMemory };

    fn from(_error: AllocError) -> SeqError {
        SeqError::Memory
    }
}
