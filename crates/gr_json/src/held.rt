//! Why an event is held as JSON.

use crate::values::{EventObject, ReleaseObject, Text, push_line, push_lines};
use gr_model::event::EventId;
use gr_timeline::reason::{Link, Reason};
use gr_timeline::why::WhyHeld;
use serde::Serialize;
use std::alloc::{Allocator, Global};

/// Why an event is held: by an event, by a release that is named, or by the event in a line above.
#[derive(Drop, Serialize)]
struct ReasonObject {
    #[serde(skip_serializing_if = "Option::is_none")]
    event: Option<EventObject>,
    #[serde(skip_serializing_if = "Option::is_none")]
    line: Option<usize>,
    name: &'static str,
    #[serde(skip_serializing_if = "Option::is_none")]
    release: Option<ReleaseObject>,
}

/// An event, and why it is held, if it is.
#[derive(Drop, Serialize)]
struct EventLine {
    event: EventObject,
    #[serde(skip_serializing_if = "Option::is_none")]
    reason: Option<ReasonObject>,
    #[serde(rename = "type")]
    line: &'static str,
}

fn reason_object(reason: Reason) -> ReasonObject {
    let (name, named, line) = match reason {
        Reason::Behind(_) => ("behind", None, None),
        Reason::Release(_) => ("release", None, None),
        Reason::Barrier(_) => ("barrier", None, None),
        Reason::Absent(named) => ("absent", Some(named), None),
        Reason::OtherWord(named) => ("other-word", Some(named), None),
        Reason::Circle(line) => ("circle", None, Some(line)),
    };
    ReasonObject {
        event: reason.leads_to().map(|event| event.into()),
        line,
        name,
        release: named.map(|named| named.into()),
    }
}

fn event_line(event: EventId, reason: Option<Reason>, line: &'static str) -> EventLine {
    EventLine {
        event: event.into(),
        reason: reason.map(reason_object),
        line,
    }
}

/// Why an event is held, or that it is not, as lines of JSON.
///
/// # Errors
/// `Memory`: out of memory.
pub fn why_json<A: Allocator>(alloc: Global, event: EventId, why: &WhyHeld<A>) -> Text {
    let mut text = Vec::new(alloc);
    match why {
        WhyHeld::NoRecord => push_line(&mut text, &event_line(event, None, "no record"))?,
        WhyHeld::Judged => push_line(&mut text, &event_line(event, None, "judged"))?,
        WhyHeld::Held(links) => push_lines(&mut text, links, |link| {
            event_line(link.event, Some(link.reason), "held")
        })?,
    }
    Ok(text)
}
