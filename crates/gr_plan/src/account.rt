//! What was read of the streams in a series of bytes: where each begins, and how many records there were.

use crate::seen::Seen;
use gr_model::limits::{MOST_GROUPS, MOST_RECORDS};
use gr_model::memory::Memory;
use gr_places::opening::fault_of;
use gr_record::error::RecordError;
use gr_record::fault::Fault;
use gr_record::header::Header;
use gr_record::layout::HEADER_LENGTH;
use gr_record::reading::{read_event, site_of};
use gr_record::stream::read_front_header;
use std::alloc::Global;
use std::io::Read;

/// The first byte of an end. No record has a greater first byte.
const END: u8 = 6;

/// How many bytes are read at once.
const PIECE_LENGTH: usize = 65_536;

/// How many streams are counted at most: one more than a launch may have.
const MOST_STREAMS: usize = MOST_GROUPS + 1;

/// What was read of a series of streams, one after another. If nobody sees the records, only their first bytes are checked.
#[derive(Drop)]
pub struct Account {
    /// Whether all bytes of each record are checked.
    judges: bool,
    /// The number of the stream at whose end to stop, from 0, if one is given. All bytes of its records are checked.
    pub last: Option<u64>,
    /// Where each stream begins.
    pub starts: Vec<u64>,
    /// How many records of the present stream were passed.
    pub records: u64,
    /// How many bytes were passed.
    pub passed: u64,
    /// Why the next bytes are not of a stream, if they are not.
    pub fault: Option<RecordError>,
    /// The header of the present stream; none if a header comes next.
    pub header: Option<Header>,
    /// The bytes that were taken and not passed.
    bytes: Vec<u8>,
}

/// Whether the bytes begin as a header does.
pub fn begins_stream(bytes: &[u8]) -> bool {
    matches!(bytes, [b'G', b'R', b'T', b'1'..=b'4', ..])
}

impl Account {
    /// The account before any byte is read.
    pub fn new(alloc: Global, judges: bool) -> Account {
        Account {
            judges,
            last: None,
            starts: Vec::new(alloc),
            records: 0,
            passed: 0,
            fault: None,
            header: None,
            bytes: Vec::new(alloc),
        }
    }

    /// Passes and shows what was taken before, takes a piece of bytes, and gives how many records were passed.
    pub fn take(&mut self, piece: &[u8], seen: &mut Seen) -> Result<u64, Memory> {
        let records = self.pass(seen)?;
        if self.fault.is_none() {
            self.bytes.extend_from_slice(piece)?;
        }
        Ok(records)
    }

    /// Takes, passes and shows the bytes of a reader, up to its end or to bytes that are not of a stream. Adds them to those that are kept,
    /// if some are.
    ///
    /// # Errors
    /// `Read` if the reader fails; `Memory`.
    pub fn read<R: Read>(
        &mut self,
        reader: &mut R,
        seen: &mut Seen,
        mut kept: Option<&mut Vec<u8>>,
    ) -> Result<(), Fault> {
        let mut piece = [0u8; PIECE_LENGTH];
        for _ in 0..u64::MAX {
            let n = reader.read(&mut piece).map_err(|error| fault_of(&error))?;
            self.take(&piece[..n], seen)?;
            self.pass(seen)?;
            if let Some(kept) = &mut kept {
                kept.extend_from_slice(&piece[..n]).map_err(Memory::from)?;
            }
            if n == 0 || self.fault.is_some() {
                break;
            }
        }
        Ok(())
    }

    /// Passes and shows the whole headers and records that were taken, removes them, and gives how many records they are.
    pub fn pass(&mut self, seen: &mut Seen) -> Result<u64, Memory> {
        let (mut at, mut all): (usize, u64) = (0, 0);
        for _ in 0..self.bytes.len() {
            let (length, records) = match self.pass_front(at, seen) {
                Ok(passed) => passed,
                Err(RecordError::Memory) => return Err(Memory),
                Err(RecordError::Truncated) => break,
                Err(fault) => {
                    self.fault = Some(fault);
                    break;
                }
            };
            at = at.saturating_add(length);
            self.passed = self.passed.saturating_add(length as u64);
            self.records = self.records.saturating_add(records);
            all = all.saturating_add(records);
        }
        let at = at.min(self.bytes.len());
        let left = self.bytes.len() - at;
        self.bytes.as_mut_slice().copy_within(at.., 0);
        self.bytes.truncate(left);
        Ok(all)
    }

    /// The bytes that were taken, from this place on.
    fn rest(&self, at: usize) -> &[u8] {
        self.bytes.get(at..).unwrap_or(&[])
    }

    /// Passes the header or the records at this place, and gives how many bytes and how many records were passed. Where nobody looks at
    /// the records, those up to the stream's end are passed at once.
    fn pass_front(&mut self, at: usize, seen: &mut Seen) -> Result<(usize, u64), RecordError> {
        let Some(header) = self.header else {
            self.pass_header(at, seen)?;
            return Ok((HEADER_LENGTH, 0));
        };
        let length = header.version.record_length();
        let streams = self.starts.len() as u64;
        let is_at_last = self.last.is_some_and(|last| streams > last);
        let judges = self.judges || is_at_last;
        if !judges && seen.is_blind() {
            let records = self.rest(at).chunks_exact(length);
            let plain = records.take_while(|record| record.first().is_some_and(|kind| *kind < END));
            let count = plain.count();
            if count > 0 {
                return Ok((count.saturating_mul(length), count as u64));
            }
        }
        let record = self.rest(at).get(..length).ok_or(RecordError::Truncated)?;
        if judges && self.records >= MOST_RECORDS as u64 {
            return Err(RecordError::TooManyRecords);
        }
        let is_end = record.first() == Some(&END);
        match read_event(header, record) {
            Err(error) if judges || error == RecordError::BadKind => return Err(error),
            _ if is_end && is_at_last => return Err(RecordError::AfterEnd),
            Ok(event) => seen.pass(&header, &event, site_of(header.version, record))?,
            Err(_) => {}
        }
        if is_end {
            self.header = None;
        }
        Ok((length, 1))
    }

    /// Passes the header at this place. Where it begins is noted once.
    fn pass_header(&mut self, at: usize, seen: &mut Seen) -> Result<(), RecordError> {
        let is_noted = self.starts.last().copied() == Some(self.passed);
        if begins_stream(self.rest(at)) && !is_noted && self.starts.len() < MOST_STREAMS {
            self.starts.push(self.passed)?;
        }
        let (header, _) = read_front_header(self.rest(at))?;
        self.header = Some(header);
        self.records = 0;
        Ok(seen.begin(&header)?)
    }

    /// Whether all bytes are checked, and the next ones are not of a stream.
    pub fn is_refused(&self) -> bool {
        self.judges && self.fault.is_some()
    }

    /// Whether the bytes end inside a stream.
    pub fn is_torn(&self) -> bool {
        self.fault.is_none() && (self.header.is_some() || !self.bytes.is_empty())
    }

    /// Whether there was no byte.
    pub fn is_empty(&self) -> bool {
        self.passed == 0 && self.bytes.is_empty()
    }

    /// Whether a header should come next, but its text does.
    pub fn is_text(&self) -> bool {
        self.header.is_none() && self.bytes.starts_with(b"group ")
    }

    /// Whether a header begins inside the next record. A header that is cut short counts, too.
    pub fn has_header_inside(&self) -> bool {
        self.header.is_some_and(|header| {
            (0..header.version.record_length()).any(|at| {
                let header = read_front_header(self.rest(at));
                begins_stream(self.rest(at)) && !matches!(header, Err(RecordError::BadHeader))
            })
        })
    }
}
