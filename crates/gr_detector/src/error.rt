//! Why a run doesn't start, and why it gives no report.

use crate::running::Running;
use gr_threads::receipt::Receipt;
use std::alloc::{Allocator, Global};
use thiserror::Error;

/// Why a run was not started. All its threads have then ended.
#[derive(Clone, Copy, Debug, PartialEq, Eq, Error)]
pub enum StartError {
    /// An allocation was refused before any thread was started.
    #[error("out of memory")]
    Memory,
    /// A thread could not be started, for any cause.
    #[error("a thread could not be started")]
    Threads,
}

/// Why a run has no report.
#[derive(Drop)]
pub enum FinishError<A: Allocator = Global> {
    /// Some work-group has no receipt, or more than one. The run goes on; these are the run and the receipts.
    Receipts(Running<A>, Vec<Receipt<A>, A>),
    /// Memory ran out in some thread. The run is over: all its threads have ended, and the receipts are used up.
    Memory,
}
