//! The word of memory that a text of the form `NAME[INDEX]` names.

ghost use Rattle.std.specs.Prelude.{◌≡◌, MatchOption, map};
ghost use Rattle.std.specs.List.{find};
ghost use Rattle.std.specs.Option.{is_some};
ghost use Rattle.gr_places.specs.Naming as spec;
ghost use Rattle.gr_places.specs.SideLines.{buffer_line};

use crate::buffers::{BufferLine, element_of};
use gr_model::event::Word;
use gr_text::words::parse_number;

/// The index in a text that is this name followed by an index in brackets.
#[tactic(auto, unfolding(crate::specs::Naming::index_after, crate::specs::Naming::after, crate::specs::Naming::before, gr_text::specs::LineReading::same))]
fn index_after(name: &str, text: &str) -> Option<u32>
    ensures { result ≡ spec.index_after name.now text.now }
{
    let indexed = text.as_bytes().strip_prefix(name.as_bytes())?;
    let closed = indexed.strip_prefix(b"[")?;
    let digits = closed.strip_suffix(b"]")?;
    parse_number(digits)
}

/// The word at this place of a buffer, if it has one.
pub fn word_at(line: &BufferLine<'_>, index: u32) -> Option<Word>
    ensures { result ≡ spec.word_at (buffer_line line.now) index }
{
    if index >= line.words {
        return None;
    }
    match line.first {
        Word::Global(first) => Some(Word::Global(first.checked_add(index)?)),
        Word::Local(group, first) => Some(Word::Local(group, first.checked_add(index)?)),
    }
}

/// The word of this line that the text names, if the first line that has the word has the name of this line.
#[tactic(auto, unfolding(crate::specs::Naming::word_in, gr_text::specs::LineReading::same))]
fn word_in(lines: &[BufferLine<'_>], line: &BufferLine<'_>, text: &str) -> Option<Word>
    ensures { result ≡ spec.word_in (map buffer_line lines.now) (buffer_line line.now) text.now }
{
    let index = index_after(line.name, text)?;
    let word = word_at(line, index)?;
    let found = element_of(lines, word)?;
    (found.index == index && found.name == line.name).then_some(word)
}

/// The first line of which the text names a word.
fn line_said<'a>(lines: &[BufferLine<'a>], text: &str) -> Option<BufferLine<'a>>
    ensures { result ≡ find (λ l. is_some (spec.word_in (map buffer_line lines.now) (buffer_line l) text.now)) lines.now }
{
    lines
        .iter()
        .copied()
        .find(|line| word_in(lines, line, text).is_some())
}

/// The word that a text of the form `NAME[INDEX]` names: its buffer has this name, and its place in the buffer is this index, in
/// decimal digits without leading zeros. If there are several, as in the local memory of several groups, it is the word of the first
/// line. `None` if no word has this name.
pub fn word_said(lines: &[BufferLine<'_>], text: &str) -> Option<Word>
    ensures { MatchOption result ((w : Word) → ¬ spec.IsSaid (map buffer_line lines.now) text.now w) (λ w. spec.IsSaid (map buffer_line lines.now) text.now w) }
{
    let line = line_said(lines, text)?;
    word_in(lines, &line, text)
}
