//! The sequencer's thread: it takes the events of all intake queues, handles them, and passes their accesses to the workers.
#![tactic(auto)]

mod backlog;
pub mod begin;
pub mod end;
mod feed;
pub mod inlet;
mod on_way;
pub mod outlet;
pub mod thread;
mod way;
