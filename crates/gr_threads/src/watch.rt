//! What a caller may watch of a run while it runs.

use gr_model::event::Word;

/// Called by the threads of a run, which share it, at the moments that the names say. A slow call delays its thread.
pub trait Watch {
    /// The sequencer's thread popped a record of the work-group. The sequencer takes it now or later.
    fn at_take(&self, group: u16);

    /// The worker has an access and is about to apply it.
    fn at_access(&self, worker: u16);

    /// An access that the worker applied made the word racy.
    fn at_race(&self, worker: u16, word: &Word);
}

/// Watches nothing.
#[derive(Clone, Copy, Debug)]
pub struct NoWatch;

impl Watch for NoWatch {
    fn at_take(&self, _group: u16) {}

    fn at_access(&self, _worker: u16) {}

    fn at_race(&self, _worker: u16, _word: &Word) {}
}
