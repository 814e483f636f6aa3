//! All records of a launch are taken and handled as they can be, and whoever wants them gets its accesses with their clocks, one
//! after another along a lawful order: shadows for races, others for a question about some of its words or events.
#![tactic(auto)]

pub mod handling;
pub mod keeper;
pub mod reports;
pub mod rounds;
pub mod source;
pub mod taking;
pub mod traces;
pub mod turn;
