//! Answers about a launch as lines of plain text (docs/OUTPUT.md, from "explain" on).
//!
//! Nothing is proved about these texts but the line of `explain`; runs test them. That the answers are right is proved by the crates
//! that make them.
#![tactic(auto)]

pub mod check;
pub mod held;
pub mod history;
mod parts;
pub mod race;
pub mod races;
