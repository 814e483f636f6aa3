//! The threads of a run: what a caller may watch of them, how an idle thread waits, the sending end of one work-group's
//! stream, and a worker's thread, which applies the accesses of its queue to its shadows until `Stop` comes.
#![tactic(auto)]

pub mod batching;
pub mod idle;
pub mod receipt;
pub mod sender;
pub mod watch;
pub mod worker;
pub mod worker_thread;
