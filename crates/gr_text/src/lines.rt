//! A text as its lines.

ghost use Rattle.std.specs.Prelude.{◌≡◌, ◌<◌, ◌∷◌, length};
ghost use Rattle.gr_text.specs.Prelude.{lines_of};

use crate::words::split_at_mark;

/// The first line of a text without its line feed, and the text after it.
/// Requires: the text is not empty.
#[tactic(auto, using(crate::proofs::Splitting::first_line))]
pub fn split_line(text: &[u8]) -> (&[u8], &[u8])
    requires { 0 < length text.now }
    ensures lines { lines_of text.now ≡ result.0.now ∷ lines_of result.1.now }
    ensures shorter { length result.1.now < length text.now }
{
    let (line, rest) = split_at_mark(text, b'\n');
    (line, rest.unwrap_or(&[]))
}
