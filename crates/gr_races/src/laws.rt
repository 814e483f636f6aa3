//! Laws of kinds and causes. Each is the contract of a function that does nothing.

ghost use Rattle.gr_races.specs.Laws.{CauseIsOne, EachRaceIsInOrder, EachRaceIsListedOnce, EveryRaceHasAKind, RelaxedAreAccepted, SameKindsAreOne, SameTagsAreOne};

/// Kinds are the same exactly if the memory, what both accesses do and where, whether these are of one work-group, and the cause are
/// the same. Tags are the same exactly if both accesses do the same at one place, or at no known one.
#[tactic(auto, using(crate::proofs::KindLemmas::the_same_kinds_are_one))]
pub fn the_same_kinds_are_one()
    ensures kinds { SameKindsAreOne }
    ensures tags { SameTagsAreOne }
{}

/// Each race of a launch has a kind, and is among the races of just that kind.
pub fn races_are_listed()
    ensures kinds { EveryRaceHasAKind }
    ensures order { EachRaceIsInOrder }
    ensures once { EachRaceIsListedOnce }
{}

/// If a rule is relaxed, each group still has a list that it may have, and it is complete.
pub fn relaxed_lists_are_accepted()
    ensures { RelaxedAreAccepted }
{}

/// A race has one cause.
pub fn a_race_has_one_cause()
    ensures { CauseIsOne }
{}
