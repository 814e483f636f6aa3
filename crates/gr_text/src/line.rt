//! What a line of the text form says (docs/FORMATS.md, "Text form").

use gr_model::event::Event;
use gr_record::header::Header;

/// What a line of the text form says: a header, or a record.
#[derive(Clone, Copy, Debug, PartialEq, Eq)]
pub enum Line {
    /// The line is that of a header.
    Header(Header),
    /// The line is that of a record.
    Event(Event),
}

/// A line with the site at its end.
#[derive(Clone, Copy, Debug, PartialEq, Eq)]
pub struct SitedLine {
    /// What comes before the site.
    pub line: Line,
    /// The number of the site; 0 where the line has none.
    pub site: u16,
}
