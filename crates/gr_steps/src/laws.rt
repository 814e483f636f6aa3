//! Laws of the steps. Each is the contract of a function that does nothing. docs/MODEL.md, "Steps", gives them in words.

ghost use Rattle.gr_steps.specs.Laws.{ReadyIsNext, HandleStaysLawful, MeetStaysLawful, GrowthStaysLawful, HandlesStay, MeetsStay, RestIsGrounded, HeldAtRest, GroundedIsDecided, UnmatchedAreReported, AllIsGrounded, AllRacesCount};

/// An event that may be handled after a lawful order is the next event of its item.
pub fn ready_is_next()
    ensures { ReadyIsNext }
{}

/// A lawful order stays lawful where an event is handled, where an instance meets, and where lists that are not complete grow.
pub fn steps_stay_lawful()
    ensures handle { HandleStaysLawful }
    ensures meet { MeetStaysLawful }
    ensures growth { GrowthStaysLawful }
{}

/// A step that was allowed before lists that are not complete grew is allowed after, with the same outcome.
pub fn steps_stay_allowed()
    ensures handle { HandlesStay }
    ensures meet { MeetsStay }
{}

/// Where no event may be handled and no instance may meet, the handled events are the grounded ones, and the others are
/// as many as a report says are held.
pub fn rest_is_grounded()
    ensures grounded { RestIsGrounded }
    ensures held { HeldAtRest }
{}

/// In complete lists each event is grounded or is not. If no acquire is unmatched, which is so if a report names none,
/// every event is grounded, and so every race is reported.
pub fn all_is_grounded()
    ensures decided { GroundedIsDecided }
    ensures reported { UnmatchedAreReported }
    ensures all { AllIsGrounded }
    ensures races { AllRacesCount }
{}
