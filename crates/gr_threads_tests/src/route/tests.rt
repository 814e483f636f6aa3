//! Tests of the calls of queues and senders.

pub(crate) mod queues;
pub(crate) mod senders;
