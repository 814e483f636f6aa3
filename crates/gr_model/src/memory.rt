//! The error of an allocation that was refused.

use std::alloc::{AllocError, AllocFailed};
use thiserror::Error;

/// Out of memory: an allocation was refused. The value on which a public method was called is then unchanged.
#[derive(Clone, Copy, Debug, PartialEq, Eq, Error)]
#[error("out of memory")]
pub struct Memory;

impl From<AllocError> for Memory {
    fn from(_error: AllocError) -> Memory {
        Memory
    }
}

impl<T: Drop> From<AllocFailed<T>> for Memory {
    fn from(_error: AllocFailed<T>) -> Memory {
        Memory
    }
}
