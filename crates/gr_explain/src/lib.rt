//! Which accesses of a launch race: the least racing pair of a word, one race for each two tags that race on a word, and which of some
//! given pairs race.
//!
//! Semantics: the contracts speak of happens-before itself. The code handles the launch once, in a lawful order, and compares the
//! accesses by their clocks.
#![tactic(auto)]

mod accesses;
mod alike;
pub mod explain;
mod indices;
pub mod judging;
pub mod records;
mod search;
mod seen;
mod tag_pairs;
pub mod tagged;
pub mod tags;
pub mod word_pairs;
