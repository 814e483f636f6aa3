//! Names and places as they are shown.

use std::fmt::{self, Display, Formatter};

/// A text of others in one line, its control characters escaped: it gives a terminal no command.
#[derive(Clone, Copy)]
pub struct Escaped<'a>(pub &'a str);

impl Display for Escaped<'_> {
    fn fmt<W: fmt::Write>(&self, f: &mut Formatter<W>) -> fmt::Result {
        for letter in self.0.chars() {
            match letter {
                '\n' => f.write_str("\\n")?,
                '\r' => f.write_str("\\r")?,
                '\t' => f.write_str("\\t")?,
                _ if letter.is_control() => write!(f, "\\x{:02x}", letter as u32)?,
                _ => f.write_char(letter)?,
            }
        }
        Ok(())
    }
}
