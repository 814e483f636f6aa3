//! From a text to the bytes of its streams.

ghost use Rattle.std.specs.Prelude.{◌≡◌, ◌≤◌, ◌++◌, length, IfErr, OnOk};
ghost use Rattle.gr_record.specs.Prelude.{Gives, IsOfValues, IsHeader, header_spelling, event_spelling, places};
ghost use Rattle.gr_text.specs.Prelude.{IsSaid, MOST_ITEMS_OF_A_GROUP, line_bytes, packed, HasRoom};
ghost use Rattle.gr_model.specs.Prelude.{IsEventOk};

use crate::line::{Line, SitedLine};
use crate::lines::split_line;
use crate::place::{Place, take_line};
use gr_model::event::Event;
use gr_model::memory::Memory;
use gr_record::encoding::{encode_header, encode_sited, encode_sited2};
use gr_record::fault::Fault;
use gr_record::header::{Header, Version};
use gr_record::layout::{HEADER_LENGTH, LONG_RECORD_LENGTH, RECORD_LENGTH};
use std::alloc::Allocator;

/// Adds the bytes of a record of this site, in a stream of this version.
pub(crate) fn push_record<A: Allocator>(
    bytes: &mut Vec<u8, A>,
    version: Version,
    event: &Event,
    site: u16,
) -> Result<(), Memory>
    requires range { IsEventOk event.now MOST_ITEMS_OF_A_GROUP }
    requires names { length event.now.names ≤ places version }
    ensures { OnOk result (bytes.new.items ≡ bytes.old.items ++ event_spelling version (record { event = event.now; site = site })) }
{
    match version {
        Version::One | Version::Three => {
            let mut unit = [0; RECORD_LENGTH];
            encode_sited(event, site, &mut unit);
            bytes.extend_from_slice(&unit)?;
        }
        Version::Two | Version::Four => {
            let mut unit = [0; LONG_RECORD_LENGTH];
            encode_sited2(event, site, &mut unit);
            bytes.extend_from_slice(&unit)?;
        }
    }
    Ok(())
}

/// Adds the bytes of a header.
pub(crate) fn push_header<A: Allocator>(
    bytes: &mut Vec<u8, A>,
    header: &Header,
) -> Result<(), Memory>
    requires { IsHeader header.now }
    ensures { OnOk result (bytes.new.items ≡ bytes.old.items ++ header_spelling header.now) }
{
    let mut unit = [0; HEADER_LENGTH];
    encode_header(header, &mut unit);
    bytes.extend_from_slice(&unit)?;
    Ok(())
}

/// Adds the bytes of a header, or of a record in a stream of this version.
fn push_bytes<A: Allocator>(
    bytes: &mut Vec<u8, A>,
    version: Version,
    line: &SitedLine,
) -> Result<(), Memory>
    requires said { IsSaid version line.now.line }
    requires names { HasRoom version line.now.line }
    ensures { OnOk result (bytes.new.items ≡ bytes.old.items ++ line_bytes version line.now) }
{
    match &line.line {
        Line::Header(header) => push_header(bytes, header),
        Line::Event(event) => push_record(bytes, version, event, line.site),
    }
}

/// The bytes of the streams that a text has, one stream after another.
///
/// # Errors
/// Of the first line at fault, with its number from 1: `BadLine` if its place needs another line, else `LongStream` if
/// it is one record more than a stream may have. `NoEnd` if no line is at fault and the text is over inside a stream.
/// `Memory` if an allocation is refused.
#[tactic(auto, using(crate::proofs::Steps::line_steps), unfolding(crate::specs::Texts::said_from))]
pub fn pack_text<A: Allocator>(alloc: A, text: &[u8]) -> Result<Vec<u8, A>, Fault>
    ensures exact { Gives (λ v. v.items) result (packed text.now) }
    ensures values { IfErr result IsOfValues }
{
    let mut bytes = Vec::new(alloc);
    let mut place = Place::Outside;
    let mut number: u64 = 0;
    let mut rest = text;
    while !rest.is_empty() {
        number += 1;
        let (line, after) = split_line(rest);
        let (said, behind) = take_line(number, place, line)?;
        push_bytes(&mut bytes, place.version(), &said)?;
        place = behind;
        rest = after;
    }
    match place {
        Place::Outside => Ok(bytes),
        Place::Inside { header: _, left: _ } => Err(Fault::NoEnd),
    }
}
