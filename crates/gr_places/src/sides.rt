//! What side files say.

use crate::buffers::BufferLine;
use crate::places::PlaceLine;

/// What the side files of a launch say; nothing if there are none.
#[derive(Clone, Copy, Debug)]
pub struct Sides<'a> {
    /// Where events are in the source.
    pub places: &'a [PlaceLine<'a>],
    /// Which words belong to which buffer.
    pub buffers: &'a [BufferLine<'a>],
}
