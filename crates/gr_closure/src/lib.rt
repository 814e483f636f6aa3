//! What happens before what along an order of steps (sees, knows, learns: docs/MODEL.md, "Clocks"). An event that is handled sees itself,
//! what its work-item knew, and what it learns from its release. Where an instance of barriers meets, each item of the group knows from
//! then on, in the memories that are flagged, what any of the barriers sees. Vector clocks that follow the steps count exactly this.
//!
//! The words that are hit in the accesses along a lawful order are the racy ones of its events. Each access carries a clock that counts
//! just its event and what happens before it. So a race test needs no more than the list of the accesses.
#![tactic(auto)]

pub mod hit_laws;
pub mod knowledge_laws;
