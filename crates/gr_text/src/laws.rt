//! Which texts and bytes are accepted. Each law is the contract of a function that does nothing; docs/FORMATS.md,
//! "Stream" and "Text form", has them in words.

ghost use Rattle.gr_text.specs.Prelude.{RefusedIsToldUpToItsFault, WholeStreamsStandWhole, DumpedAreStreams, DumpedIsPackedAgain, PackedAreStreams, PackedIsDumpedAgain, UpgradedAreStreams, UpgradedStays, WholeStreamsAreDumped, WholeStreamsArePacked, WholeStreamsAreUpgraded};

/// Bytes that are dumped are those of whole streams, one after another, and what is written is the text of these
/// streams.
#[tactic(auto, using(crate::proofs::Streaming::dumped_are_streams))]
pub fn dumped_are_streams()
    ensures { DumpedAreStreams }
{}

/// A text that is packed is that of whole streams, one after another; its last line feed may be missing. What is written is
/// the bytes of these streams.
#[tactic(auto, using(crate::proofs::PackedStreams::packed_are_streams))]
pub fn packed_are_streams()
    ensures { PackedAreStreams }
{}

/// The bytes of whole streams are dumped. What is packed is dumped again as the text that it was, with its last line
/// feed.
#[tactic(auto, using(crate::proofs::SpelledStreams::whole_streams_are_dumped, crate::proofs::SpelledStreams::packed_is_dumped_again))]
pub fn streams_are_dumped()
    ensures streams { WholeStreamsAreDumped }
    ensures again { PackedIsDumpedAgain }
{}

/// The text of whole streams is packed. What is dumped is packed again as the bytes that it was.
#[tactic(auto, using(crate::proofs::SpelledStreams::whole_streams_are_packed, crate::proofs::SpelledStreams::dumped_is_packed_again))]
pub fn streams_are_packed()
    ensures streams { WholeStreamsArePacked }
    ensures again { DumpedIsPackedAgain }
{}

/// Bytes that are upgraded are those of whole streams, one after another. What is written is the bytes of the same
/// streams in version 2: each has the same group, items, launch and records.
#[tactic(auto, using(crate::proofs::UpgradedStreams::upgraded_are_streams))]
pub fn upgraded_are_streams()
    ensures { UpgradedAreStreams }
{}

/// The bytes of whole streams are upgraded. What was upgraded stays as it is.
#[tactic(auto, using(crate::proofs::UpgradedStreams::whole_streams_are_upgraded, crate::proofs::UpgradedStreams::upgraded_stays))]
pub fn streams_are_upgraded()
    ensures streams { WholeStreamsAreUpgraded }
    ensures again { UpgradedStays }
{}

/// The text of refused bytes is that of the whole streams before the fault, as many as the fault's place says, and of the
/// start of the stream at fault: nothing, where its header is refused; else its header and the records before the refused
/// one. Bytes without a fault have all of their text.
#[tactic(auto, using(crate::proofs::PartialLaws::refused_is_told, crate::proofs::PartialLaws::whole_streams_stand_whole))]
pub fn refused_is_told_up_to_its_fault()
    ensures refused { RefusedIsToldUpToItsFault }
    ensures whole { WholeStreamsStandWhole }
{}
