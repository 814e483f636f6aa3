//! A law of hits. It is the contract of a function that does nothing. docs/MODEL.md, "Hits", gives it in words.

ghost use Rattle.gr_shadow.specs.Laws.{HitsAreOfTheirWords};

/// A word is hit in a list of accesses exactly where it is hit in those to any set of words that has it. So a worker
/// that is given the accesses to its words alone finds the same hits of these words.
pub fn hits_are_of_their_words()
    ensures { HitsAreOfTheirWords }
{}
