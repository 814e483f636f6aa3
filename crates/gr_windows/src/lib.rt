//! For each work-item of a launch, the events that wait: those that were taken and not handled, and no others.
#![tactic(auto)]

mod row;
mod window;
pub mod windows;
