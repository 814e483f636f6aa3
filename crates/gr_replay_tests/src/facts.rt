//! What the contracts alone give for some values. For each value some wrong body would return something else.

ghost use Rattle.std.specs.Prelude.{◌≡◌};

use gr_intake::backlog::Backlog;
use gr_model::event::{Event, EventId, ItemId, Kind, Space};
use gr_model::memory::Memory;
use gr_model::names::Names;
use gr_record::fault::Fault;
use gr_record::header::{Header, Version};
use gr_replay::replay;
use gr_timeline::reason::Reason;
use std::alloc::Global;
use std::test::*;

/// A plain write of a global word by item 0.
fn write(word: u32) -> Event
    ensures { result.word ≡ word }
{
    Event {
        item: 0,
        kind: Kind::Write,
        space: Space::Global,
        word,
        names: Names::none(),
    }
}

/// Two records that wait come in their order, each once.
fn next_of_two_records(alloc: Global, header: Header) -> Result<(), Memory> {
    let mut backlog = Backlog::new(alloc, header);
    backlog.push(&write(7))?;
    backlog.push(&write(8))?;
    match (backlog.next(), backlog.next()) {
        (Some(first), Some(second)) => prove!(first.word == 7 && second.word == 8),
        _ => unreachable!(),
    }
    Ok(())
}

#[test]
fn a_backlog(rt: HostRuntime) -> Result<(), Fail> {
    let header = Header {
        version: Version::One,
        group: 0,
        items: 1,
        launch: 7,
    };
    next_of_two_records(rt.alloc(), header)?;
    Ok(())
}

/// Nothing is written of an input that is refused.
fn replay_of_a_refused_input(alloc: Global, bytes: &[u8]) -> bool {
    let mut text = Vec::new(alloc);
    let mut reader = bytes;
    match replay(alloc, &mut reader, &mut text) {
        Ok(_) | Err(Fault::Write) => false,
        Err(_) => {
            prove!(text.is_empty());
            true
        }
    }
}

#[test]
fn a_refused_input(rt: HostRuntime) {
    assert!(rt; replay_of_a_refused_input(rt.alloc(), &[0]));
}

/// A barrier is held because of the event before the barrier that it meets.
#[test]
fn leads_to_of_a_barrier() {
    let event = EventId {
        at: ItemId { group: 0, item: 1 },
        index: 2,
    };
    prove!(Reason::Barrier(event).leads_to() == Some(event));
}
