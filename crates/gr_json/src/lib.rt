//! Answers about a launch as lines of JSON, an object each (docs/OUTPUT.md, "JSON objects").
//!
//! Nothing is proved about these texts; runs test them. That the answers are right is proved by the crates that make them.
#![tactic(auto)]

pub mod check;
pub mod held;
pub mod history;
pub mod race;
pub mod races;
pub mod report;
mod values;
