//! The lines of side files.

ghost use Rattle.std.specs.Prelude.{◌≡◌, ◌++◌, ◌∷◌, [], ℕ, IfErr, IfOk, List, OnOk, Option, map, option_map};
ghost use Rattle.gr_text.specs.Lines.{lines_of};
ghost use Rattle.gr_places.specs.SideLines as spec;
ghost use Rattle.gr_places.specs.declared.sides_fault.SidesFault.{SidesFault as AnyFault};

use crate::sides_fault::SidesFault;
use gr_model::memory::Memory;
use gr_text::lines::split_line;
use std::alloc::Allocator;

/// A line of a side file.
pub(crate) trait SideLine<'a>: Drop {
    // what a line says, and what the bytes of a line say, if they have the form of the file's lines; and the fault of a file of which
    // the line of this number is the first that does not
    ghost Said: { Type 0 };

    ghost said: { Self → Said };

    ghost said_in: { List ℕ → Option Said };

    ghost refusal: { ℕ → AnyFault };

    /// What a line says, without its line feed, or `None` if it does not have the form of the file's lines.
    fn parse(line: &'a [u8]) -> Option<Self>
        ensures { option_map said result ≡ said_in line.entry.now };

    /// The fault of a file of which the line with this number is the first that does not have the form.
    fn refusal(line: u64) -> SidesFault
        ensures { result ≡ refusal line };
}

/// Whether the first byte is a decimal digit.
pub(crate) fn is_digit_first(bytes: &[u8]) -> bool
    ensures { result ≡ spec.begins_with_digit bytes.now }
{
    matches!(bytes, [b'0'..=b'9', ..])
}

/// The text up to the end of a line, or `None` if it is empty or not UTF-8.
#[tactic(auto, using(crate::proofs::Reading::utf8_told), unfolding(crate::specs::SideLines::text_said))]
pub(crate) fn parse_text(bytes: &[u8]) -> Option<&str>
    ensures { option_map (λ text. text.now) result ≡ spec.text_said bytes.now }
{
    match str::from_utf8(bytes) {
        Ok(text) if !bytes.is_empty() => Some(text),
        _ => None,
    }
}

/// Adds a value to a list.
pub(crate) fn keep<T: Drop, A: Allocator>(kept: &mut Vec<T, A>, said: T) -> Result<(), Memory>
    ensures { OnOk result (kept.new.items ≡ kept.old.items ++ said ∷ []) }
{
    kept.push(said)?;
    Ok(())
}

/// What the lines of a side file say, in their order.
///
/// # Errors
/// That of the first line that does not have the form, by its number from 1; `Run` with `Memory`.
pub(crate) fn read_lines<'a, A: Allocator, L: SideLine<'a>>(
    alloc: A,
    text: &'a [u8],
) -> Result<Vec<L, A>, SidesFault>
    ensures said { IfOk result (λ lines. spec.said_from L.said_in 1 (lines_of text.entry.now) ≡ Ok (map L.said lines.items)) }
    ensures fault { IfErr result (spec.Refuses L.refusal (spec.said_from L.said_in 1 (lines_of text.entry.now))) }
{
    let mut lines = Vec::new(alloc);
    let mut number: u64 = 0;
    let mut rest = text;
    while !rest.is_empty() {
        number += 1;
        let (line, after) = split_line(rest);
        let Some(said) = L::parse(line) else {
            return Err(L::refusal(number));
        };
        keep(&mut lines, said)?;
        rest = after;
    }
    Ok(lines)
}
