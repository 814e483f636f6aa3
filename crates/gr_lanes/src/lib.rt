//! What was taken of a launch's streams: the number of records of each work-group, and the releases and barriers of each
//! work-item. Nothing is kept of other records.
#![tactic(auto)]

mod bare;
mod group;
pub mod instance;
pub mod kinds;
mod lane;
pub mod lanes;
pub mod seq_error;
