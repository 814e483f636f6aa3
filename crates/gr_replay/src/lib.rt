//! From the bytes of streams to the text of a report.
#![tactic(auto)]

pub mod detect;
pub mod each;
mod input;
pub mod joined;
pub mod launch;
pub mod laws;
pub mod records;
mod run;

pub use each::read_each;
pub use launch::read_joined;
pub use run::{read_report, replay};
