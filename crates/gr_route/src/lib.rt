//! The queues between the threads of a run: from the senders to the sequencer, and from the sequencer to each worker.
//! Each has a rule over what it holds and what its seats pushed and popped. Every step of every thread keeps the rule.
//! docs/QUEUES.md explains this in words.
#![tactic(auto)]

pub mod batch;
pub mod group_batch;
pub mod intake;
pub mod laws;
pub mod leads;
pub mod room;
pub mod rule;
pub mod spares;
pub mod work;
