//! The memory model of the detector: the types that all other crates use, and in `specs/` the definitions of happens-before, of a data race
//! and of the report. docs/MODEL.md gives them in words. There are also conflict, inclusive scope and synchronization of two accesses, and
//! the class of an access, which is all that a race test has to know of its kind.
#![tactic(auto)]

pub mod access;
pub mod class;
pub mod class_laws;
pub mod config;
pub mod event;
pub mod growing;
pub mod history;
pub mod laws;
pub mod limits;
pub mod memory;
pub mod names;
pub mod race;
pub mod report;
pub mod shape;
pub mod traces;
pub mod words;
