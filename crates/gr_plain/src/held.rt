//! The text of why an event is held.

use crate::parts::{Added, EventText};
use gr_model::event::{EventId, Name};
use gr_model::memory::Memory;
use gr_timeline::reason::{Link, Reason};
use gr_timeline::why::WhyHeld;
use std::alloc::Allocator;

fn put_name<A: Allocator>(text: &mut String<A>, reason: &str, name: Name) -> Added {
    let (group, item, release) = (name.at.group, name.at.item, name.release);
    writeln!(text, "{reason} {group} {item} {release}")
}

fn put_link<A: Allocator>(text: &mut String<A>, link: &Link) -> Added {
    write!(text, "held {} ", EventText(link.event))?;
    match link.reason {
        Reason::Behind(event) => writeln!(text, "after {}", EventText(event)),
        Reason::Release(event) => writeln!(text, "release {}", EventText(event)),
        Reason::Barrier(event) => writeln!(text, "barrier {}", EventText(event)),
        Reason::Absent(name) => put_name(text, "absent", name),
        Reason::OtherWord(name) => put_name(text, "other-word", name),
        Reason::Circle(place) => writeln!(text, "circle {place}"),
    }
}

/// The text of why an event is held, or that it is not.
///
/// # Errors
/// `Memory`: out of memory.
pub fn why_text<A: Allocator>(
    alloc: A,
    event: EventId,
    why: &WhyHeld<A>,
) -> Result<Vec<u8, A>, Memory> {
    let mut text = String::new(alloc);
    match why {
        WhyHeld::NoRecord => writeln!(text, "no record {}", EventText(event))?,
        WhyHeld::Judged => writeln!(text, "judged {}", EventText(event))?,
        WhyHeld::Held(links) => {
            for link in links {
                put_link(&mut text, link)?;
            }
        }
    }
    Ok(text.into_bytes())
}
