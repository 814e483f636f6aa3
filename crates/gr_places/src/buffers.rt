//! Which words of memory belong to which buffer.

ghost use Rattle.std.specs.Prelude.{◌≡◌, IfErr, IfOk, map};
ghost use Rattle.std.specs.List.{find};
ghost use Rattle.std.specs.Option.{is_some, option_map};
ghost use Rattle.gr_places.specs.SideLines as spec;
ghost use Rattle.gr_places.specs.declared.sides_fault.SidesFault.TheVariants.{Buffers};

use crate::lines::{SideLine, parse_text, read_lines};
use crate::sides_fault::SidesFault;
use gr_model::event::Word;
use gr_text::words::{is_word, parse_number, parse_short, split_word};
use std::alloc::Allocator;

/// A line of a file of buffers.
#[derive(Clone, Copy, Debug)]
pub struct BufferLine<'a> {
    /// The first word.
    pub first: Word,
    /// How many words there are.
    pub words: u32,
    /// The name, as the file has it: not empty.
    pub name: &'a str,
}

/// A word of a buffer.
#[derive(Clone, Copy, Debug)]
pub struct Element<'a> {
    /// The name of the buffer.
    pub name: &'a str,
    /// The place of the word in the buffer, from 0.
    pub index: u32,
}

impl<'a> BufferLine<'a> {
    /// The place of a word in the buffer, if it belongs to it.
    fn index_of(&self, word: Word) -> Option<u32>
        ensures { result ≡ spec.index_in (spec.buffer_line self.now) word }
    {
        let index = match (self.first, word) {
            (Word::Global(first), Word::Global(number)) => number.checked_sub(first),
            (Word::Local(group, first), Word::Local(other, number)) if group == other => {
                number.checked_sub(first)
            }
            _ => None,
        }?;
        (index < self.words).then_some(index)
    }
}

/// A buffer in this group's local memory, or in global memory, by the bytes of its line after the memory.
#[tactic(auto, unfolding(crate::specs::SideLines::buffer_said))]
fn parse_buffer(group: Option<u16>, bytes: &[u8]) -> Option<BufferLine<'_>>
    ensures { option_map spec.buffer_line result ≡ spec.buffer_said group bytes.now }
{
    let (first, rest) = split_word(bytes);
    let (words, rest) = split_word(rest?);
    let first = parse_number(first)?;
    let words = parse_number(words)?;
    let name = parse_text(rest?)?;
    let first = match group {
        None => Word::Global(first),
        Some(group) => Word::Local(group, first),
    };
    Some(BufferLine { first, words, name })
}

impl<'a> SideLine<'a> for BufferLine<'a> {
    ghost use Rattle.gr_places.specs.SideLines.{BufferSaid, buffer_line, buffer_line_said};
    ghost use Rattle.gr_places.specs.declared.sides_fault.SidesFault.TheVariants.{Buffers};

    ghost Said = { BufferSaid };

    ghost said = { buffer_line };

    ghost said_in = { buffer_line_said };

    ghost refusal = { Buffers };

    #[tactic(auto, unfolding(crate::specs::SideLines::buffer_line_said))]
    fn parse(line: &'a [u8]) -> Option<BufferLine<'a>> {
        let (space, rest) = split_word(line);
        let bytes = rest?;
        if is_word(space, "g") {
            return parse_buffer(None, bytes);
        }
        let (group, rest) = split_word(bytes);
        if is_word(space, "l") {
            parse_buffer(Some(parse_short(group)?), rest?)
        } else {
            None
        }
    }

    fn refusal(line: u64) -> SidesFault
        ensures { result ≡ Buffers line }
    {
        SidesFault::Buffers(line)
    }
}

/// What the lines of a file of buffers say, in their order.
///
/// # Errors
/// `Buffers` with the number, from 1, of the first line that does not have the form; `Run` with `Memory`.
pub fn buffers_of<A: Allocator>(
    alloc: A,
    bytes: &[u8],
) -> Result<Vec<BufferLine<'_>, A>, SidesFault>
    ensures said { IfOk result (λ lines. spec.buffers_in bytes.now ≡ Ok (map spec.buffer_line lines.items)) }
    ensures fault { IfErr result (spec.Refuses Buffers (spec.buffers_in bytes.now)) }
{
    read_lines(alloc, bytes)
}

/// The first line that has a word.
fn line_with<'a>(lines: &[BufferLine<'a>], word: Word) -> Option<BufferLine<'a>>
    ensures { result ≡ find (λ l. is_some (spec.index_in (spec.buffer_line l) word)) lines.now }
{
    lines
        .iter()
        .copied()
        .find(|line| line.index_of(word).is_some())
}

/// The buffer of a word and the word's place in it, by the first line that has the word, or `None` if no line has it.
#[tactic(auto, using(crate::proofs::Reading::find_viewed))]
pub fn element_of<'a>(lines: &[BufferLine<'a>], word: Word) -> Option<Element<'a>>
    ensures { option_map spec.element result ≡ spec.element_of (map spec.buffer_line lines.now) word }
{
    let line = line_with(lines, word)?;
    let index = line.index_of(word)?;
    Some(Element {
        name: line.name,
        index,
    })
}
