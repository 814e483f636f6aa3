//! Writers that fail.

use std::alloc::Global;
use std::io::{self, ErrorKind, Write};

/// How a writer fails.
#[derive(Clone, Copy, Debug, PartialEq, Eq)]
pub enum Failure {
    /// A write is an error.
    Error,
    /// A write takes no byte.
    TakesNothing,
    /// All is taken, and the flush is an error.
    Flush,
}

/// Takes so many bytes more, at most three at a call, and then fails. It counts flushes.
#[derive(Drop)]
pub struct FailingWriter {
    /// What it took.
    pub taken: Vec<u8>,
    room: usize,
    failure: Failure,
    is_flushed: bool,
    flushes: u8,
}

impl FailingWriter {
    /// A writer with room for so many bytes.
    pub fn new(alloc: Global, room: usize, failure: Failure) -> FailingWriter {
        FailingWriter {
            taken: Vec::new(alloc),
            room,
            failure,
            is_flushed: false,
            flushes: 0,
        }
    }

    /// Whether it took this text and was then flushed, once.
    fn has_whole(&self, text: &[u8]) -> bool {
        self.taken.as_slice() == text && self.is_flushed && self.flushes == 1
    }

    /// Whether it took as much of a text as it had room for, and the result is a failure exactly where it failed.
    fn has_front(&self, is_told: bool, text: &[u8], room: usize) -> bool {
        if room < text.len() {
            is_told && self.taken.len() == room && text.starts_with(&self.taken)
        } else {
            is_told == (self.failure == Failure::Flush) && self.has_whole(text)
        }
    }
}

impl Write for FailingWriter {
    fn write(&mut self, buf: &[u8]) -> io::Result<usize> {
        let count = buf.len().min(self.room).min(3);
        if count == 0 && self.failure == Failure::Error {
            return Err(io::Error::from(ErrorKind::StorageFull));
        }
        self.taken.extend_from_slice(&buf[..count])?;
        self.room = self.room.saturating_sub(count);
        self.is_flushed = false;
        Ok(count)
    }

    fn flush(&mut self) -> io::Result<()> {
        self.is_flushed = true;
        self.flushes = self.flushes.saturating_add(1);
        match self.failure {
            Failure::Flush => Err(io::Error::from(ErrorKind::StorageFull)),
            Failure::Error | Failure::TakesNothing => Ok(()),
        }
    }
}

/// Writes a text to writers that fail in each way, with room for each prefix of it. `write` returns whether a failure was
/// returned to it. The error is the first way and room where no failure was returned, or another prefix was written.
pub fn fail_each<F: Fn(&mut FailingWriter) -> bool>(
    alloc: Global,
    text: &[u8],
    write: F,
) -> Result<(), (Failure, usize)>
    requires { F.IsAlwaysCallable write }
{
    for failure in [Failure::Error, Failure::TakesNothing, Failure::Flush] {
        for room in 0..text.len().saturating_add(2) {
            let mut writer = FailingWriter::new(alloc, room, failure);
            let is_told = write(&mut writer);
            if !writer.has_front(is_told, text, room) {
                return Err((failure, room));
            }
        }
    }
    Ok(())
}
