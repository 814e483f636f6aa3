//! Which line a text may have at a place.

ghost use Rattle.std.specs.Prelude.{◌≡◌, ◌≢◌, IfOk, IfErr};
ghost use Rattle.gr_text.specs.Prelude.{IsSitedSaid, sited_said, HasRoom, version_at, record_at, record_line, line_at};

use crate::line::{Line, SitedLine};
use crate::parsing::read_sited_line;
use gr_model::event::Event;
use gr_model::limits::MOST_RECORDS;
use gr_record::fault::Fault;
use gr_record::header::{Header, Version};

/// The place of a line in a text.
#[derive(Clone, Copy, Debug, PartialEq, Eq)]
pub enum Place {
    /// Before a header: at the start of the text, or after an end.
    Outside,
    /// In the stream of this header, with room for `left` more records.
    Inside { header: Header, left: u32 },
}

impl Place {
    /// The version of the stream at this place; `One` before a header, which says its own.
    pub(crate) fn version(&self) -> Version
        ensures { result ≡ version_at self.now }
    {
        match self {
            Place::Outside => Version::One,
            Place::Inside { header, left: _ } => header.version,
        }
    }
}

/// The line of a record in a stream, with its site, and the place after it.
fn take_event(
    number: u64,
    header: Header,
    left: u32,
    event: Event,
    site: u16,
) -> Result<(SitedLine, Place), Fault>
    ensures exact { result ≡ record_at number header left (record { event = event; site = site }) }
    ensures line { IfOk result (λ x. x.0 ≡ record_line (record { event = event; site = site })) }
{
    if event.item >= header.items || event.names.as_slice().len() > header.version.places() {
        return Err(Fault::BadLine(number));
    }
    if left == 0 {
        return Err(Fault::LongStream(number));
    }
    let behind = if event.kind.is_end() {
        Place::Outside
    } else {
        Place::Inside {
            header,
            left: left - 1,
        }
    };
    let line = Line::Event(event);
    Ok((SitedLine { line, site }, behind))
}

/// What a line of a text says at this place, and the place after it. The line is given without its line feed; its number
/// is this.
///
/// # Errors
/// `BadLine` with the number if the place needs another line; else `LongStream` with the number if the line is one
/// record more than a stream may have.
#[tactic(auto, using(crate::proofs::LineSites::sited_told, crate::proofs::Steps::line_at_told))]
pub fn take_line(number: u64, place: Place, line: &[u8]) -> Result<(SitedLine, Place), Fault>
    ensures exact { result ≡ line_at number place (sited_said (version_at place) line.now) }
    ensures said { IfOk result (λ x. IsSitedSaid (version_at place) x.0) }
    ensures room { IfOk result (λ x. HasRoom (version_at place) x.0.line) }
{
    let Some(SitedLine { line, site }) = read_sited_line(place.version(), line) else {
        return Err(Fault::BadLine(number));
    };
    match (place, line) {
        (Place::Outside, Line::Header(header)) => {
            let behind = Place::Inside {
                header,
                left: MOST_RECORDS as u32,
            };
            Ok((SitedLine { line, site }, behind))
        }
        (Place::Inside { header, left }, Line::Event(event)) => {
            take_event(number, header, left, event, site)
        }
        _ => Err(Fault::BadLine(number)),
    }
}
