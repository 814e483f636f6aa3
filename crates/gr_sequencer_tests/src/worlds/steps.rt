//! What the senders of a schedule send.

use crate::rows::{Record, Row, event_of};
use gr_model::event::Kind;
use gr_world::step::Step;
use std::alloc::{AllocError, Global};
use std::collections::VecDeque;

/// In which order the groups send.
#[derive(Clone, Copy, Debug, PartialEq, Eq)]
pub(crate) enum Way {
    /// As the row lists the records.
    AsListed,
    /// All of the greatest group first, then all of the one before it.
    GreatestFirst,
}

/// No row has more groups.
pub(crate) const MOST_GROUPS: u16 = 2;

/// The step that sends a record.
fn send_of(record: &Record) -> Step {
    match record.2 {
        Kind::End { cut } => Step::Close(record.0, cut),
        _ => Step::Send(record.0, event_of(record)),
    }
}

/// The steps that send a row's records.
pub(crate) fn sends_of(alloc: Global, row: &Row, way: Way) -> Result<VecDeque<Step>, AllocError> {
    let rounds = match way {
        Way::AsListed => [0..MOST_GROUPS, 0..0],
        Way::GreatestFirst => [1..MOST_GROUPS, 0..1],
    };
    let mut steps = VecDeque::new(alloc);
    for groups in &rounds {
        for record in row.2.iter().filter(|record| groups.contains(&record.0)) {
            steps.push_back(send_of(record))?;
        }
    }
    Ok(steps)
}
