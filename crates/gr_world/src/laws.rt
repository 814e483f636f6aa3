//! A law of worlds: the contract of a function that does nothing. docs/MODEL.md, "The world", says it in words.

ghost use Rattle.gr_world.specs.Laws.{ReceivedHitsStay};

/// A word that is hit in what a worker of some world received is racy. It stays racy among the grounded events, however the
/// lists that were taken grow.
pub fn nothing_is_taken_back()
    ensures { ReceivedHitsStay }
{}
