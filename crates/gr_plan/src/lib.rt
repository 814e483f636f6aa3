//! What the words of a command line name: files with several streams, folders and standard input. `plan` opens and reads each as the
//! command takes it, and `notes` adds to the line of a fault where it is.
#![tactic(auto)]

mod account;
pub mod files;
mod line;
mod named;
pub mod notes;
pub mod plan;
pub mod progress;
pub mod reading;
mod seen;
mod source;
mod text_fault;
