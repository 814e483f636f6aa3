//! Which words are hit along a list of accesses (docs/MODEL.md, "Hits"): each access is compared, by its vector clock,
//! with the earlier ones to its word. Nothing here knows of streams, names or barriers.
#![tactic(auto)]

pub mod launch;
pub mod laws;
pub mod lent;
pub mod merge;
mod shadow;
pub mod shadows;
mod touch;
mod touches;
