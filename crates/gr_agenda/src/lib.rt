//! Which step is ready next, without a look at all items: a list of the steps that may have become ready.
#![tactic(auto)]

pub mod agenda;
mod reach;
mod waiting;
mod worklist;
