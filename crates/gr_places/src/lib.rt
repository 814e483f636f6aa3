//! The side files of a trace, which say where in the source an event or a barrier is, and which words belong to which buffer. This
//! crate also opens files by their names, writes the lines of their faults, and checks whether files are the streams of a launch: it
//! counts the records of each kind, or says where the first fault is.
//!
//! docs/FORMATS.md, "Side files", has the form of the lines of side files.
#![tactic(auto)]

pub mod buffers;
pub mod checking;
pub mod counts;
pub mod escaped;
pub mod fault_places;
pub mod files;
pub mod index;
pub mod laws;
mod lines;
pub mod naming;
mod neighbours;
pub mod opening;
pub mod places;
pub mod sentences;
pub mod sides;
pub mod sides_fault;
pub mod spot;
