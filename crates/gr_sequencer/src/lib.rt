//! The sequencer takes the records of a launch and handles its events step by step. Each access gets a clock that counts exactly
//! what happens before it.
#![tactic(auto)]

pub mod handled;
mod known;
pub mod sequencer;
mod sources;
