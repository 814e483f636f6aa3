//! Where in the source events and barriers are.

ghost use Rattle.std.specs.Prelude.{◌≡◌, IfErr, IfOk, map};
ghost use Rattle.std.specs.Option.{option_map};
ghost use Rattle.gr_places.specs.SideLines as spec;
ghost use Rattle.gr_places.specs.declared.sides_fault.SidesFault.TheVariants.{Places};

use crate::lines::{SideLine, is_digit_first, parse_text, read_lines};
use crate::sides_fault::SidesFault;
use gr_model::event::{EventId, ItemId};
use gr_text::words::{parse_number, parse_short, split_word};
use std::alloc::Allocator;

/// What has a place in the source.
#[derive(Clone, Copy, Debug, PartialEq, Eq, Hash)]
pub enum Placed {
    /// An event of the trace.
    Event(EventId),
    /// The barriers of a site.
    Site(u32),
}

/// A line of a file of places.
#[derive(Clone, Copy, Debug)]
pub struct PlaceLine<'a> {
    /// What is there.
    pub of: Placed,
    /// The place, as the file has it: it is not empty, and does not begin with a digit.
    pub text: &'a str,
}

/// The line of an event, by its group and the bytes after the group.
#[tactic(auto, unfolding(crate::specs::SideLines::event_said))]
fn parse_event<'a>(group: &[u8], bytes: &'a [u8]) -> Option<PlaceLine<'a>>
    ensures { option_map spec.place_line result ≡ spec.event_said group.now bytes.entry.now }
{
    let (item, rest) = split_word(bytes);
    let (index, rest) = split_word(rest?);
    let at = ItemId {
        group: parse_short(group)?,
        item: parse_short(item)?,
    };
    let index = parse_number(index)?;
    let bytes = rest?;
    if is_digit_first(bytes) {
        return None;
    }
    let text = parse_text(bytes)?;
    let of = Placed::Event(EventId { at, index });
    Some(PlaceLine { of, text })
}

impl<'a> SideLine<'a> for PlaceLine<'a> {
    ghost use Rattle.gr_places.specs.SideLines.{PlaceSaid, place_line, place_line_said};
    ghost use Rattle.gr_places.specs.declared.sides_fault.SidesFault.TheVariants.{Places};

    ghost Said = { PlaceSaid };

    ghost said = { place_line };

    ghost said_in = { place_line_said };

    ghost refusal = { Places };

    #[tactic(auto, unfolding(crate::specs::SideLines::place_line_said))]
    fn parse(line: &'a [u8]) -> Option<PlaceLine<'a>> {
        let (first, rest) = split_word(line);
        let bytes = rest?;
        if is_digit_first(bytes) {
            return parse_event(first, bytes);
        }
        let of = Placed::Site(parse_number(first)?);
        let text = parse_text(bytes)?;
        Some(PlaceLine { of, text })
    }

    fn refusal(line: u64) -> SidesFault
        ensures { result ≡ Places line }
    {
        SidesFault::Places(line)
    }
}

/// What the lines of a file of places say, in their order.
///
/// # Errors
/// `Places` with the number, from 1, of the first line that does not have the form; `Run` with `Memory`.
pub fn places_of<A: Allocator>(alloc: A, bytes: &[u8]) -> Result<Vec<PlaceLine<'_>, A>, SidesFault>
    ensures said { IfOk result (λ lines. spec.places_in bytes.now ≡ Ok (map spec.place_line lines.items)) }
    ensures fault { IfErr result (spec.Refuses Places (spec.places_in bytes.now)) }
{
    read_lines(alloc, bytes)
}
