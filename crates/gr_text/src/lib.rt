//! The text form of streams: their records as lines, text to bytes and back. Also streams of version 1 as those of version 2.
#![tactic(auto)]

pub use run::{dump, dump_partial, pack, upgrade};

pub mod forming;
pub mod laws;
pub mod line;
pub mod line_text;
pub mod lines;
pub mod packing;
pub mod parsing;
pub mod partial;
pub mod place;
mod run;
pub mod words;
