//! The definitions, tried on small lists. Each clause is a worked example, proved.

ghost use Rattle.std.specs.Prelude.{◌≡◌, true, Some, None, IsFalse};
ghost use Rattle.gr_model.specs.Prelude.{word_in, IsConvergent, IsDivergent, arrivals, BasePair, HappensBefore, HasDivergenceCause, Mark};
ghost use Rattle.gr_model.specs.Prelude.{flags, HasAcquireCause, release_place, IsCut, word_at, IsGrounded, Waits};
ghost use Rattle.gr_model.specs.declared.event.Space.TheVariants.{Global, Local};
ghost use Rattle.gr_model.specs.declared.report.AcquireCause.TheVariants.{Absent, OtherWord, Behind};
ghost use Rattle.gr_model.specs.declared.report.DivergenceCause.TheVariants.{Missing};
ghost use Rattle.gr_model_tests.specs.Examples.{event, release, half_there, handed_by_two, handed_over, names_itself, crossed, scopes_differ, two_releases, mixed, waiting, met, the_mark, local_words};

/// What a release hands over to an acquire is ordered, from before the release to after the acquire.
#[tactic(auto, using(crate::proofs::ExampleLemmas::write_before_read, crate::proofs::ExampleLemmas::second_is_cut))]
pub fn a_release_hands_over()
    ensures ordered { HappensBefore handed_over Global (event 0 0 0) (event 1 0 1) }
    ensures cut { IsCut handed_over 1 }
{}

/// A name may point at an item or at a release that is not there.
pub fn a_name_may_point_nowhere()
    ensures no_item { release_place handed_over (release 5 0 0) ≡ None }
    ensures no_release { release_place handed_over (release 0 0 1) ≡ None }
{}

/// What waits for itself is never reached, be it in one step or in many.
#[tactic(auto, using(crate::proofs::ExampleLemmas::circles))]
pub fn circles_are_held()
    ensures itself { ¬ IsGrounded names_itself (event 0 0 0) }
    ensures cause { HasAcquireCause names_itself (event 0 0 0) Behind }
    ensures first { ¬ IsGrounded crossed (event 0 0 0) }
    ensures second { ¬ IsGrounded crossed (event 1 0 0) }
{}

/// An acquire waits for a release of another scope, which does not order it.
#[tactic(auto, using(crate::proofs::ExampleLemmas::waits_all_the_same, crate::proofs::ExampleLemmas::gives_no_pair))]
pub fn another_scope_does_not_order()
    ensures waits { Waits scopes_differ (event 0 1 0) (event 0 0 0) }
    ensures unordered { ¬ BasePair scopes_differ Global (event 0 0 0) (event 0 1 0) }
{}

/// Releases are counted over all words and both memories.
#[tactic(auto, using(crate::proofs::ExampleLemmas::of_another_word))]
pub fn releases_are_counted_over_all_words()
    ensures second { release_place two_releases (release 0 0 1) ≡ Some 1 }
    ensures other_word { HasAcquireCause two_releases (event 0 1 0) OtherWord }
{}

/// An acquire that names two releases is ordered after both.
#[tactic(auto, using(crate::proofs::ExampleLemmas::first_before_read, crate::proofs::ExampleLemmas::second_before_read))]
pub fn two_releases_hand_over()
    ensures first { HappensBefore handed_by_two Global (event 0 0 0) (event 2 0 1) }
    ensures second { HappensBefore handed_by_two Global (event 1 0 0) (event 2 0 2) }
{}

/// One release that is absent, or else one of another word, is enough for the cause, whatever the other names.
#[tactic(auto, using(crate::proofs::ExampleLemmas::one_is_absent, crate::proofs::ExampleLemmas::one_is_of_another_word))]
pub fn one_name_gives_the_cause()
    ensures absent { HasAcquireCause half_there (event 1 0 0) Absent }
    ensures other_word { HasAcquireCause half_there (event 2 0 0) OtherWord }
{}

/// Instances count on after a divergent one, and an instance waits as long as its group's list is not complete.
#[tactic(auto, using(crate::proofs::ExampleLemmas::instances))]
pub fn instances_are_told_apart()
    ensures first { IsDivergent mixed 0 0 }
    ensures second { HasDivergenceCause true 2 (arrivals mixed 0 1) Missing }
    ensures waiting { (a : Mark) → ¬ IsConvergent waiting 0 0 a }
    ensures not_yet { ¬ IsDivergent waiting 0 0 }
{}

/// A barrier orders the memory that it flags.
#[tactic(auto, using(crate::proofs::ExampleLemmas::met_converges, crate::proofs::ExampleLemmas::write_meets_read))]
pub fn a_barrier_orders_the_memory_that_it_flags()
    ensures convergent { IsConvergent met 0 0 the_mark }
    ensures flagged { HappensBefore met Local (event 0 0 0) (event 0 1 1) }
    ensures other { IsFalse (flags the_mark Global) }
{}

/// Local words of two groups are two words.
pub fn local_words_belong_to_their_groups()
    ensures first { word_at local_words (event 0 0 0) ≡ Some (word_in Local 0 4) }
    ensures second { word_at local_words (event 1 0 0) ≡ Some (word_in Local 1 4) }
{}
