//! The result of a push into a full queue.

/// The queue was full at some moment of the call, and this is the value that was not pushed.
#[derive(Debug, Drop)]
pub struct Full<T>(pub T);
