//! Queues and senders, and a run of three senders. Its contract says that all that was sent arrives in order.

pub(crate) mod tests;
pub(crate) mod three_senders;
