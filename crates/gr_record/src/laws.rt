//! Laws between the bytes of a stream and what they say. Each is the contract of a function that does nothing;
//! docs/FORMATS.md, "Stream", has them in words.

ghost use Rattle.gr_record.specs.Prelude.{SpelledIsRead, SpelledHeaderIsRead, ReadIsSpelled, ReadHeaderIsSpelled, NoSpellingBeginsAnother, SpelledPrefixIsRead, ReadPrefixIsSpelled, FaultStays};

/// A record or header in range is read from the bytes that spell it, whatever follows those, and so is the record's site.
/// A header and the records after it are read from the bytes that spell them.
pub fn spelled_is_read()
    ensures event { SpelledIsRead }
    ensures header { SpelledHeaderIsRead }
    ensures prefix { SpelledPrefixIsRead }
{}

/// What is read is in range, and the bytes from which it was read are those that spell it with the site that they say.
pub fn read_is_spelled()
    ensures event { ReadIsSpelled }
    ensures header { ReadHeaderIsSpelled }
    ensures prefix { ReadPrefixIsSpelled }
{}

/// Bytes after a fault change neither the fault nor the parts before it.
#[tactic(auto, using(crate::proofs::Resuming::fault_stays))]
pub fn fault_stays()
    ensures { FaultStays }
{}

/// The bytes that spell a record are not the start of those that spell another, nor of those of another site.
#[tactic(auto, using(crate::proofs::Spelled::no_spelling_begins_another))]
pub fn no_spelling_begins_another()
    ensures { NoSpellingBeginsAnother }
{}
