//! A law of the place of a fault. It is the contract of a function that does nothing. docs/OUTPUT.md, "check", says it in words.

ghost use Rattle.gr_places.specs.Laws.{FaultsAreWhereReadingStops};

/// If inputs are refused for a fault of a stream, there is an input at the stream's place, and a decoder that reads the bytes of this
/// input stops for the same fault.
#[tactic(auto, using(crate::proofs::LawLemmas::faults_stop))]
pub fn faults_are_where_reading_stops()
    ensures { FaultsAreWhereReadingStops }
{}
