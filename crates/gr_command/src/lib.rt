//! The program over values: does what the words of a command line ask for. One frame answers every question about the files of a launch.
//!
//! Its reader, writers, files and threads are arguments. A contract says that an answer is right. Its text is a rendering, in plain text or
//! JSON: nothing is proved about it, except for the line of `explain`.
#![tactic(auto)]

mod checking;
pub mod execute;
mod files;
mod question;
mod questions;
mod reporting;
pub mod status;
mod streams;
mod writing;

pub use streams::show_race;
