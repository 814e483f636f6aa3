//! What the words of the program's command line ask for.
#![tactic(auto)]

pub mod command;
pub mod laws;
pub mod request;
mod values;
pub mod words;

pub use request::request_of;
