//! What a name of the command line opens.

use gr_model::memory::Memory;
use std::alloc::{AllocError, Global};
use std::fs::{self, File};
use std::io::{self, Read, Seek, SeekFrom, Stdin};
use std::sync::Arc;

/// How many files may be open at once. If there are more, each is open only while it is read.
const MOST_OPEN: usize = 256;

/// Where the bytes of a piece are.
#[derive(Clone, Drop)]
enum Bytes {
    /// In the file of a path. It is open only while it is read, so thousands of its streams may be read side by side.
    File(HostRuntime, String),
    /// In memory: they were read before.
    Kept(Arc<Vec<u8>>),
}

/// Bytes from one place up to another, or up to their end if that comes first. A file is opened when it is read.
#[derive(Clone, Drop)]
pub struct Piece {
    bytes: Bytes,
    at: u64,
    end: u64,
}

/// How many bytes the file of a path has.
pub fn file_size(rt: HostRuntime, path: &str) -> Option<u64> {
    let metadata = fs::metadata(&rt, path).ok()?;
    metadata.is_file().then_some(metadata.len())
}

impl Piece {
    /// All bytes of the file of a path.
    pub fn of_file(rt: HostRuntime, path: String) -> Piece {
        Piece {
            bytes: Bytes::File(rt, path),
            at: 0,
            end: u64::MAX,
        }
    }

    /// Bytes that were read before.
    pub fn of_bytes(alloc: Global, bytes: Vec<u8>) -> Result<Piece, Memory> {
        Ok(Piece {
            at: 0,
            end: bytes.len() as u64,
            bytes: Bytes::Kept(Arc::new(alloc, bytes)?),
        })
    }

    /// The bytes from `at` up to `end`, or up to the end of the piece.
    pub fn part(&self, at: u64, end: u64) -> Result<Piece, AllocError> {
        let bytes = self.bytes.clone()?;
        let end = end.min(self.end);
        Ok(Piece { bytes, at, end })
    }

    /// How many bytes there are, if that is known.
    pub fn size(&self) -> Option<u64> {
        let end = match &self.bytes {
            Bytes::File(rt, path) if self.end == u64::MAX => file_size(*rt, path.as_str())?,
            Bytes::File(_, _) | Bytes::Kept(_) => self.end,
        };
        Some(end.saturating_sub(self.at))
    }
}

impl Read for Piece {
    fn read(&mut self, buf: &mut [u8]) -> io::Result<usize> {
        let left = self.end.saturating_sub(self.at);
        let most = buf.len().min(left as usize);
        if most == 0 {
            return Ok(0);
        }
        let n = match &self.bytes {
            Bytes::File(rt, path) => {
                let mut file = File::open(rt, path.as_str())?;
                file.seek(SeekFrom::Start(self.at))?;
                file.read(&mut buf[..most])?
            }
            Bytes::Kept(bytes) => {
                let mut rest = bytes.get(self.at as usize..).unwrap_or(&[]);
                rest.read(&mut buf[..most])?
            }
        };
        self.at = self.at.saturating_add(n as u64);
        Ok(n)
    }
}

/// What a name opens.
#[derive(Drop)]
pub enum Source {
    /// A file or a pipe, from its present place to its end.
    Whole(File),
    Piece(Piece),
    Input(Stdin),
}

impl Source {
    /// Opens the file or pipe of a path, or standard input if it is `-`. It is one of `count` files.
    pub fn open(rt: HostRuntime, path: &str, count: usize) -> io::Result<Source> {
        if path == "-" {
            return Ok(Source::Input(rt.stdin()));
        }
        let file = File::open(&rt, path)?;
        if count > MOST_OPEN && file_size(rt, path).is_some() {
            let path = String::from_str(rt.alloc(), path)?;
            return Ok(Source::Piece(Piece::of_file(rt, path)));
        }
        Ok(Source::Whole(file))
    }
}

impl Read for Source {
    fn read(&mut self, buf: &mut [u8]) -> io::Result<usize> {
        match self {
            Source::Whole(file) => file.read(buf),
            Source::Piece(piece) => piece.read(buf),
            Source::Input(input) => input.read(buf),
        }
    }
}
