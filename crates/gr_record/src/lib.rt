//! The streams of a launch as bytes and as text: what a header and a record say, and why an input is refused.
#![tactic(auto)]

pub mod decoder;
pub mod encoding;
pub mod error;
pub mod fault;
pub mod header;
pub mod input;
pub mod laws;
pub mod layout;
pub mod part;
pub mod reading;
mod stop;
pub mod stream;
