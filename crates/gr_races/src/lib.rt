//! The races of a launch as data: the races by their kinds, the cause of each, and for the least racing pair of a word what its accesses
//! are and what lies between them.
//!
//! Semantics of causes: records are changed as if a rule were relaxed, and the definition of a race is asked again. This crate has no
//! happens-before of its own.
#![tactic(auto)]

pub mod account;
pub mod arrivals;
pub mod between;
pub mod by_kind;
pub mod cause;
pub mod kinds;
pub mod laws;
pub mod listing;
pub mod names;
mod parting;
pub mod relaxing;
pub mod runs;
mod taken;
