//! The history of one word of a launch: the accesses to it that are not held, in an order in which they can be handled, each with those
//! above it that happen before it; and how many accesses to it are held.
//!
//! It also answers why an event is held. A held event waits for another held event, or names a release that is absent or on another
//! word. So from any held event a chain of such reasons leads to a root, or back to an event of the chain.
#![tactic(auto)]

pub mod accesses;
mod counting;
pub mod details;
pub mod entry;
pub mod history;
mod judged;
pub mod reason;
mod reasons;
pub mod standing;
mod walk;
pub mod why;
pub mod word_history;
