//! Laws of what work-items know along an order (sees, knows, learns: docs/MODEL.md, "Clocks"). Each law is the contract
//! of a function that does nothing.

ghost use Rattle.gr_closure.specs.KnowledgeLaws.{ClocksCount, KnownAreHandled, SeenAreHandled, OwnAreKnown, HandledSees, HandledKnows, OthersKnowAfterHandle, MetSees, FlaggedKnows, UnflaggedKnows, OthersKnowAfterMeet, KnowledgeStays, SeenStay};

/// What an item knows, and what a handled event sees, was handled. An item knows of its own handled events.
pub fn knowledge_is_of_the_handled()
    ensures known { KnownAreHandled }
    ensures seen { SeenAreHandled }
    ensures own { OwnAreKnown }
{}

/// A handled event sees itself, what its item knew, and what it learns from its release. Its item then knows just what
/// the event sees, and every other item knows what it knew.
pub fn an_event_tells_its_item()
    ensures sees { HandledSees }
    ensures knows { HandledKnows }
    ensures others { OthersKnowAfterHandle }
{}

/// A barrier sees itself and what its item knew. Where its instance meets, each item of the group then knows, in a memory that is flagged,
/// just what any of the barriers sees, and in another memory just what its own barrier sees. The items of other groups know what they knew.
pub fn a_barrier_tells_its_group()
    ensures sees { MetSees }
    ensures flagged { FlaggedKnows }
    ensures unflagged { UnflaggedKnows }
    ensures others { OthersKnowAfterMeet }
{}

/// What is known and seen stays known and seen where lists that are not complete grow, and nothing else becomes so.
pub fn knowledge_stays()
    ensures known { KnowledgeStays }
    ensures seen { SeenStay }
{}

/// A clock that counts just what a handled event sees has for each item the number of its events that are the event or happen before it.
pub fn clocks_count()
    ensures { ClocksCount }
{}
