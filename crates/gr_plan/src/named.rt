//! A word of memory that is given by its name, such as `partial[10]`, and reports about names that no word has, or that words of several
//! memories have.

use crate::files::{FileKind, buffers_of, file_kind, launch_in, no_file, read_file};
use crate::line::{Line, Taking, taking_of};
use crate::plan::Refusal;
use gr_arguments::words::{group_of, number_of};
use gr_model::event::Word;
use gr_model::memory::Memory;
use gr_places::buffers::{BufferLine, Element, buffers_of as lines_said, element_of};
use gr_places::naming::{word_at, word_said};
use gr_text::words::parse_number;
use std::alloc::{AllocError, Global};
use std::fs;

/// What is reported about a name if no file says which word has it.
const NO_BUFFERS: &str =
    "is the name of a word, and there is no file of buffers that says which: give a folder that has one, or --buffers FILE";

/// What is due for a number without a memory, and for a name without an index.
const NO_SPACE: &str = "before a number comes its memory, which is g, or l with a group as in l3";

const NO_INDEX: &str = "a name is NAME[INDEX], whose index counts words, as in tile[4]";

/// How many names, or memories, are shown at most.
const MOST_SHOWN: usize = 8;

/// A name among the words of `explain` or `history`.
#[derive(Clone, Copy)]
pub struct Naming<'l, 'a> {
    pub line: &'l Line<'a>,
    name: &'a str,
    /// The memory of the word, if it is given too.
    space: Option<&'a str>,
    pub files: &'l [&'a str],
}

/// The name among the words of a command on a word, if there is one: after a memory, or else the first or the last of the words. It has
/// an index in brackets, or else names no file.
pub fn naming_in<'l, 'a>(line: &'l Line<'a>, is_indexed: bool) -> Option<Naming<'l, 'a>> {
    let is_name = |word: &str| match is_indexed {
        true => word.ends_with(']') && word.contains('['),
        false => file_kind(line.rt, word) == FileKind::Missing,
    };
    let is_space = |word: &str| word == "g" || group_of(word).is_some();
    let (name, space, files) = match line.values.as_slice() {
        _ if !matches!(taking_of(line.command), Some(Taking::Each(2))) => return None,
        [] | [_] => return None,
        [space, name, files @ ..] if is_space(space) => (*name, Some(*space), files),
        [name, files @ ..] if is_name(name) => (*name, None, files),
        [files @ .., space, name] if is_space(space) && !files.is_empty() => {
            (*name, Some(*space), files)
        }
        [files @ .., name] => (*name, None, files),
    };
    is_name(name).then_some(Naming {
        line,
        name,
        space,
        files,
    })
}

impl Naming<'_, '_> {
    /// The buffer in the name, and the place of the word in it, if it is a number.
    fn parts(&self) -> (&str, Option<u32>) {
        let open = self.name.strip_suffix(']');
        match open.and_then(|open| open.rsplit_once('[')) {
            None => (self.name, None),
            Some((buffer, index)) => (buffer, parse_number(index.as_bytes())),
        }
    }

    /// Whether the words of a line are of the memory that is given, if one is.
    fn is_of(&self, line: &BufferLine<'_>) -> bool {
        match (line.first, self.space) {
            (_, None) => true,
            (Word::Global(_), Some(space)) => space == "g",
            (Word::Local(group, _), Some(space)) => group_of(space) == Some(group),
        }
    }

    /// Whether a line is of the buffer in the name, and of the memory that is given, if one is.
    fn is_named(&self, line: &BufferLine<'_>) -> bool {
        line.name == self.parts().0 && self.is_of(line)
    }

    /// The refusal of a name that no word has, by the lines of this file of buffers.
    fn refusal(&self, path: &str, lines: &[BufferLine<'_>]) -> Result<Refusal, Memory> {
        let (alloc, why) = (self.line.rt.alloc(), self.why_unnamed(lines)?);
        let (name, space) = (self.name, self.space.unwrap_or(""));
        let between = if space.is_empty() { "" } else { " " };
        let text = format!(in alloc;
            "no word is {space}{between}{name}, by the file of buffers {path}: {why}"
        );
        Ok(Refusal::Usage(text?))
    }

    /// Why no word has the name, by the lines of a file of buffers.
    fn why_unnamed(&self, lines: &[BufferLine<'_>]) -> Result<String, AllocError> {
        let alloc = self.line.rt.alloc();
        let (buffer, _) = self.parts();
        if lines.is_empty() {
            return String::from_str(alloc, "it names no buffer");
        } else if buffer.contains('[') {
            return String::from_str(alloc, "a name has one index, which counts words");
        } else if !lines.iter().any(|line| line.name == buffer) {
            let names = list_of(alloc, lines, |line| String::from_str(alloc, line.name))?;
            return format!(in alloc; "its buffers are {names}");
        }
        let named = lines.iter().filter(|line| self.is_named(line));
        let Some(words) = named.map(|line| line.words).max() else {
            let spaces = spaces_of(alloc, lines, buffer)?;
            return format!(in alloc; "{buffer} is in {spaces}");
        };
        let Some((word, Element { name, index })) = self.element_in(lines) else {
            return size_of(alloc, buffer, words);
        };
        let (space, number) = spelling_of(alloc, word)?;
        Ok(format!(in alloc; "word {space} {number} is {name}[{index}]")?)
    }

    /// The word at the place of the name in the first of its buffers that has the place, and the name of this word by all lines.
    fn element_in<'b>(&self, lines: &[BufferLine<'b>]) -> Option<(Word, Element<'b>)> {
        let (_, index) = self.parts();
        let index = index?;
        let mut named = lines.iter().filter(|line| self.is_named(line));
        let word = named.find_map(|line| word_at(line, index))?;
        Some((word, element_of(lines, word)?))
    }

    /// The note about the name of a word, if other memories have a buffer of the name, or another word of this memory has the name.
    fn note(&self, lines: &[BufferLine<'_>], word: Word) -> Result<Option<String>, Memory> {
        let alloc = self.line.rt.alloc();
        let (name, (buffer, index)) = (self.name, self.parts());
        let mut placed = Vec::from_slice(alloc, lines)?;
        placed.retain(|line| index.is_some_and(|index| word_at(line, index).is_some()));
        let (space, spaces) = (space_of(alloc, word)?, spaces_of(alloc, &placed, buffer)?);
        if spaces != space {
            let text = format!(in alloc; "this is {name} of {space}; {buffer} is in {spaces}");
            return Ok(Some(text?));
        }
        let mut named = lines.iter().filter(|line| self.is_named(line));
        let other = named.find_map(|line| word_at(line, index?).filter(|other| *other != word));
        let Some(other) = other else {
            return Ok(None);
        };
        let ((_, number), (_, other)) = (spelling_of(alloc, word)?, spelling_of(alloc, other)?);
        let text = format!(in alloc;
            "this is {name} at {space} {number}; another one is at {space} {other}"
        );
        Ok(Some(text?))
    }

    /// Why no word is found by the name if there is no file of buffers.
    fn refusal_without_buffers(&self) -> Result<Refusal, Memory> {
        let (rt, alloc, name) = (self.line.rt, self.line.rt.alloc(), self.name);
        for file in self.files {
            if *file != "-"
                && let Err(error) = fs::metadata(&rt, file)
            {
                return Ok(no_file(alloc, file, &error));
            }
            if let Some(launch) = launch_in(rt, file) {
                let text = format!(in alloc;
                    "{file} holds launches; give one of them, such as {launch}"
                );
                return Ok(Refusal::Usage(text?));
            }
        }
        Ok(Refusal::Usage(format!(in alloc; "{name} {NO_BUFFERS}")?))
    }

    /// The word of the name, by the file of buffers, and a note if the name is in several memories.
    ///
    /// # Errors
    /// `Usage` if no word has the name, or there is no file of buffers; `NoFile`; `Buffers`; `Fault` with `Memory`.
    pub fn word(&self) -> Result<(Word, Option<String>), Refusal> {
        let rt = self.line.rt;
        let Some(path) = buffers_of(self.line, self.files)? else {
            return Err(self.refusal_without_buffers()?);
        };
        let bytes = read_file(rt, path.as_str())?;
        let lines = match lines_said(rt.alloc(), &bytes) {
            Ok(lines) => lines,
            Err(fault) => return Err(Refusal::Buffers(fault, path)),
        };
        let mut of_space = Vec::from_slice(rt.alloc(), &lines).map_err(Memory::from)?;
        of_space.retain(|line| self.is_of(line));
        let Some(word) = word_said(&of_space, self.name) else {
            return Err(self.refusal(path.as_str(), &lines)?);
        };
        Ok((word, self.note(&of_space, word)?))
    }

    /// Refuses a name that does not end with its index: one that has an index, that is before files without a file of buffers, or that a buffer
    /// has. A file of buffers that can't be read has no buffers.
    ///
    /// # Errors
    /// `Usage`; `Fault` with `Memory`.
    pub fn check(&self) -> Result<(), Refusal> {
        let rt = self.line.rt;
        let path = buffers_of(self.line, self.files)?;
        let mut kinds = self.files.iter().map(|file| file_kind(rt, file));
        let has_files = !self.files.is_empty() && kinds.all(|kind| kind != FileKind::Missing);
        let is_alone = self.space.is_none() && path.is_none() && has_files;
        let is_number = self.name.is_empty() || number_of(self.name).is_some();
        let is_number = is_number && self.space.is_none();
        if is_number || is_alone || self.name.contains('[') {
            let due = if is_number { NO_SPACE } else { NO_INDEX };
            let text = format!(in rt.alloc(); "'{}' names no word: {due}", self.name);
            return Err(Refusal::Usage(text.map_err(Memory::from)?));
        }
        let Some(path) = path else {
            return Ok(());
        };
        let Ok(bytes) = read_file(rt, path.as_str()) else {
            return Ok(());
        };
        match lines_said(rt.alloc(), &bytes) {
            Ok(lines) if lines.iter().any(|line| line.name == self.name) => {
                Err(self.refusal(path.as_str(), &lines)?)
            }
            Ok(_) | Err(_) => Ok(()),
        }
    }
}

/// A memory, as the command line writes it.
fn space_of(alloc: Global, word: Word) -> Result<String, AllocError> {
    match word {
        Word::Global(_) => String::from_str(alloc, "g"),
        Word::Local(group, _) => format!(in alloc; "l{group}"),
    }
}

/// The memory and the number of a word, as the command line writes them.
pub fn spelling_of(alloc: Global, word: Word) -> Result<(String, String), AllocError> {
    let (Word::Global(number) | Word::Local(_, number)) = word;
    Ok((space_of(alloc, word)?, format!(in alloc; "{number}")?))
}

/// The texts of lines, each text once.
fn list_of<F>(alloc: Global, lines: &[BufferLine<'_>], text_of: F) -> Result<String, AllocError>
where
    F: Fn(&BufferLine<'_>) -> Result<String, AllocError>,
    requires { F.IsAlwaysCallable text_of }
{
    let mut shown: Vec<String> = Vec::new(alloc);
    for line in lines {
        let next = text_of(line)?;
        if shown.contains(&next) {
            continue;
        }
        if shown.len() >= MOST_SHOWN {
            let list = shown.join(alloc, ", ")?;
            return format!(in alloc; "{list} and others");
        }
        shown.push(next)?;
    }
    shown.join(alloc, ", ")
}

/// The memories of the lines of a buffer, each once.
fn spaces_of(alloc: Global, lines: &[BufferLine<'_>], buffer: &str) -> Result<String, AllocError> {
    let mut named = Vec::from_slice(alloc, lines)?;
    named.retain(|line| line.name == buffer);
    list_of(alloc, &named, |line| space_of(alloc, line.first))
}

/// How many words a buffer has, and how they are named.
fn size_of(alloc: Global, buffer: &str, words: u32) -> Result<String, AllocError> {
    let last = words.saturating_sub(1);
    match words {
        0 => format!(in alloc; "{buffer} has no words"),
        1 => format!(in alloc; "{buffer} has one word, {buffer}[0]"),
        _ => format!(in alloc; "{buffer} has {words} words, {buffer}[0] to {buffer}[{last}]"),
    }
}
