//! Why no step was made.

ghost use Rattle.std.specs.Prelude.{◌≡◌};
ghost use Rattle.gr_order.specs.declared.go_error.GoError.TheVariants.{Memory as OutOfMemory};

use gr_model::memory::Memory;
use thiserror::Error;

/// Why no event was handled, or no instance met.
#[derive(Clone, Copy, Debug, PartialEq, Eq, Error)]
pub enum GoError {
    /// Nothing is ready there.
    #[error("not ready")]
    NotReady,
    #[error("out of memory")]
    Memory,
}

impl From<Memory> for GoError {
    ghost from_gives = { λ _ e. e ≡ OutOfMemory };

    fn from(_error: Memory) -> GoError {
        GoError::Memory
    }
}
