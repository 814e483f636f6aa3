//! Runs in threads, from their start to their reports, and what a watch sees of them.

pub(crate) mod counts;
pub(crate) mod gates;
mod ones;
mod runs;
mod senders;
mod tests;
