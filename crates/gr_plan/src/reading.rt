//! The input of a command that reads it as a whole: standard input, or files one after another.

use crate::account::Account;
use crate::progress::Progress;
use crate::seen::Seen;
use crate::source::Source;
use gr_model::memory::Memory;
use std::io::{self, Read};
use std::sync::Arc;

/// How a text begins.
const HEADER: &[u8] = b"group ";

/// What is kept of an input, to report where a fault of it is.
#[derive(Drop)]
pub enum Kept {
    /// All bytes of a text.
    Text(Vec<u8>),
    /// An account of streams.
    Streams(Account),
    /// Nothing: memory ran out.
    Nothing,
}

impl Kept {
    /// Whether what was read has a fault, whatever comes after it: then no more is read, since a pipe or a device may have no end.
    fn is_refused(&self) -> bool {
        match self {
            Kept::Text(text) => text.len() >= HEADER.len() && !text.starts_with(HEADER),
            Kept::Streams(account) => account.is_refused(),
            Kept::Nothing => false,
        }
    }

    /// Whether it is a text whose last line has no line feed.
    fn is_line_open(&self) -> bool {
        match self {
            Kept::Text(text) => text.last().is_some_and(|byte| *byte != b'\n'),
            Kept::Streams(_) | Kept::Nothing => false,
        }
    }
}

/// The input, with what is kept of it.
#[derive(Drop)]
pub struct Reading {
    /// The names of the files, if it is not standard input.
    pub names: Vec<String>,
    /// The open files; empty if one can't be opened.
    sources: Vec<Source>,
    /// The place of the file that is read now.
    at: usize,
    /// How many bytes were read.
    read: u64,
    /// The places of the files that were read from, and the bytes at which they begin.
    begins: Vec<(usize, u64)>,
    /// Whether the file at `at` has no byte.
    is_empty: bool,
    /// What is kept of the bytes that were read.
    pub kept: Kept,
    /// Who reports how far the reading is.
    pub progress: Option<Arc<Progress>>,
}

/// The open files of these names, or standard input if there are none; empty if one can't be opened.
fn sources_of(rt: HostRuntime, names: &[String]) -> Result<Vec<Source>, Memory> {
    let mut sources = Vec::new(rt.alloc());
    if names.is_empty() {
        sources.push(Source::Input(rt.stdin()))?;
    }
    for name in names {
        let Ok(source) = Source::open(rt, name.as_str(), names.len()) else {
            return Ok(Vec::new(rt.alloc()));
        };
        sources.push(source)?;
    }
    Ok(sources)
}

impl Reading {
    /// The input from these files, one after another, or from standard input if there are none. `kept` has nothing yet.
    pub fn new(rt: HostRuntime, names: Vec<String>, kept: Kept) -> Result<Reading, Memory> {
        Ok(Reading {
            sources: sources_of(rt, &names)?,
            names,
            at: 0,
            read: 0,
            begins: Vec::new(rt.alloc()),
            is_empty: false,
            kept,
            progress: None,
        })
    }

    /// Whether a byte of the present file was read.
    fn is_begun(&self) -> bool {
        self.begins.last().map(|(file, _)| *file) == Some(self.at)
    }

    /// Notes the bytes that were read.
    fn note(&mut self, piece: &[u8]) -> Result<(), Memory> {
        if !self.is_begun() {
            self.begins.push((self.at, self.read))?;
        }
        self.read = self.read.saturating_add(piece.len() as u64);
        let mut records = 0;
        match &mut self.kept {
            Kept::Text(text) => text.extend_from_slice(piece)?,
            Kept::Streams(account) => records = account.take(piece, &mut Seen::default())?,
            Kept::Nothing => {}
        }
        if let Some(progress) = &self.progress {
            progress.add(piece.len() as u64, records);
        }
        Ok(())
    }

    /// Keeps what a report of a fault needs of the bytes that were read; nothing more if memory runs out.
    fn keep(&mut self, piece: &[u8]) {
        if self.note(piece).is_err() {
            self.kept = Kept::Nothing;
        }
    }

    /// The name of a file that has no byte, if one has none: whoever was to write it has failed, and its group would be left out.
    pub fn empty_file(&self) -> Option<&str> {
        let name = self.names.get(self.at).filter(|_| self.is_empty)?;
        Some(name.as_str())
    }

    /// The name of the file that has this byte of the input, and the byte at which it begins.
    pub fn file_at(&self, byte: u64) -> Option<(&str, u64)> {
        let mut begins = self.begins.iter().rev();
        let (file, begin) = begins.find(|(_, begin)| *begin <= byte)?;
        Some((self.names.get(*file)?.as_str(), *begin))
    }
}

impl Read for Reading {
    /// Reads of the files in turn. A file that can't be opened, or has no byte, is an error.
    fn read(&mut self, buf: &mut [u8]) -> io::Result<usize> {
        if buf.is_empty() || self.kept.is_refused() {
            return Ok(0);
        }
        if self.sources.is_empty() {
            return Err(io::Error::from(io::ErrorKind::NotFound));
        }
        for _ in self.at..self.sources.len() {
            let Some(source) = self.sources.get_mut(self.at) else {
                return Ok(0);
            };
            let n = source.read(buf)?;
            if n > 0 {
                self.keep(&buf[..n]);
                return Ok(n);
            }
            if self.kept.is_line_open() {
                let mut line_end: &[u8] = b"\n";
                let n = line_end.read(buf)?;
                self.keep(&buf[..n]);
                return Ok(n);
            }
            if !self.names.is_empty() && !self.is_begun() {
                self.is_empty = true;
                return Err(io::Error::from(io::ErrorKind::UnexpectedEof));
            }
            self.at = self.at.saturating_add(1);
        }
        Ok(0)
    }
}
