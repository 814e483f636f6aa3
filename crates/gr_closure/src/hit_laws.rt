//! Laws of hits along an order. Each is the contract of a function that does nothing. docs/MODEL.md, "Hits", gives them in words.

ghost use Rattle.gr_closure.specs.HitLaws.{AccessesStay, HandledAdds, HitsAreClashes, LawfulHitsAreRaces, MetAddNone, OthersAddNone, WholeHitsAreRaces};

/// A word is hit in the accesses along an order exactly where two events of the order clash on it. If the order is lawful, these are the
/// words that are racy within it. If it also has all grounded events, they are those that are racy among the grounded events.
pub fn hits_tell_races()
    ensures clashes { HitsAreClashes }
    ensures lawful { LawfulHitsAreRaces }
    ensures whole { WholeHitsAreRaces }
{}

/// An event that is handled adds its access to those along the order. An event without a word adds none, nor do the
/// barriers of an instance that meets.
pub fn steps_add_accesses()
    ensures handle { HandledAdds }
    ensures other { OthersAddNone }
    ensures meet { MetAddNone }
{}

/// The accesses along a lawful order stay the accesses along it where lists that are not complete grow.
pub fn accesses_stay()
    ensures { AccessesStay }
{}
