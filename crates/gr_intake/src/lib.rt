//! The records of the streams of an input, each taken as it comes, and the report on them at the end. What can be handled is
//! handled at once; of the input no more is kept than what waits, in few bytes a record.
#![tactic(auto)]

pub mod backlog;
pub mod headers;
pub mod intake;
mod open;
mod piece;
pub mod reports;
mod short;
