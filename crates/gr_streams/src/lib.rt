//! A launch with one reader for each stream. The streams are sent into a run in threads while they are read.
#![tactic(auto)]

mod forward;
mod headers;
mod joins;
mod reading;
mod run;
mod seen;
mod share;
mod source;
mod thread;

pub use gr_threads::watch::{NoWatch, Watch};
pub use run::{detect_streams, run_streams};
