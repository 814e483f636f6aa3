//! Vector clocks: for each work-item and each memory, how many events of each work-item happen before now. Nothing here
//! knows of streams, names or barrier instances.
#![tactic(auto)]

pub mod access;
mod base;
mod block;
pub mod clock;
pub mod clocks;
mod group;
mod page;
mod pages;
pub mod snapshot;
mod table;
pub mod tally;
