//! Tests only: queues and senders, runs in threads from their start to their reports, and launches with a reader for each stream.
#![tactic(auto)]

#[cfg(test)]
mod detector;
#[cfg(test)]
mod facts;
#[cfg(test)]
mod route;
#[cfg(test)]
mod streams;
