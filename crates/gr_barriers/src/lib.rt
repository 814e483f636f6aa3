//! The instances of a launch's work-group barriers: which are convergent, waiting or divergent so far, and why
//! (docs/MODEL.md, "Barriers"). Nothing here knows of clocks, streams or what waits for what.
#![tactic(auto)]

mod group;
pub mod instances;
pub mod mark;
pub mod summary;

pub use gr_model::report::{Divergence, DivergenceCause};
