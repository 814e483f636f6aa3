//! The world of a run: what senders, the sequencer and workers do, one atomic step at a time, in whatever order.
//! Bounded queues connect them. docs/MODEL.md, "The world", says it in words.
#![tactic(auto)]

pub mod laws;
pub mod queue;
pub mod step;
pub mod worker;
pub mod world;
