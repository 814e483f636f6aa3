//! A run in threads. One sequencer and some workers have a thread each. The start gives a sender for each work-group; the end
//! gives the report.
#![tactic(auto)]

pub mod error;
mod joins;
pub mod running;
mod setup;
pub mod start;
mod stop;

pub use gr_threads::watch::{NoWatch, Watch};
