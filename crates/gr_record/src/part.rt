//! What a stream is made of.

use crate::header::Header;
use gr_model::event::Event;

/// A part of a stream: its header, or one of its records.
#[derive(Clone, Copy, Debug, PartialEq, Eq)]
pub enum Part {
    /// The header.
    Header(Header),
    /// A record.
    Event(Event),
}
