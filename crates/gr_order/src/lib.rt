//! The order in which a launch's events are handled: each after all that it waits for, and the barriers of a convergent instance
//! together. Also those parts of the report that follow from the taken records and the counts of the handled events: cut streams,
//! divergent barrier instances and unmatched acquires. Nothing here knows the happens-before relation.
#![tactic(auto)]

pub mod acquires;
mod forgetting;
pub mod go_error;
pub mod groups;
pub mod instances;
mod meeting;
mod ready;
pub mod schedule;
pub mod steps;
mod waiting;
