//! Decoding one stream that comes in pieces.
//!
//! A decoder keeps only those of the bytes fed to it that are no whole header or record yet. So its size does not depend
//! on the stream's. A record that lies within one piece is read in place.

ghost use Rattle.std.specs.Prelude.{◌≡◌, ◌≢◌, ◌+◌, ◌<◌, ◌≤◌, ℕ, List, [], ◌∷◌, ◌++◌, length, Err, Some, None, IsSome, IsTrue, IsFalse, ◌↔◌, ◌^◌};
ghost use Rattle.std.specs.Vec.{vec_len, vec_capacity};
ghost use Rattle.gr_model.specs.Prelude.{is_end};
ghost use Rattle.gr_record.specs.declared.error.RecordError.TheVariants.{Memory as OutOfMemory};
ghost use Rattle.gr_record.specs.Prelude.{Header, Part, Inside, AtEnd, AtFault, record_length, Standing, StandsFor, fresh, unit_length, missing, units_in, stop_behind, Continues, answer, last_answer, GrowsAs, HasMemory, reading, parts_of};

use crate::error::RecordError;
use crate::header::Header;
use crate::layout::{HEADER_LENGTH, LONG_RECORD_LENGTH, RECORD_LENGTH};
use crate::part::Part;
use crate::reading::{read_event, read_header};
use crate::stop::Stop;
use arrayvec::ArrayVec;
use gr_model::event::Event;
use gr_model::limits::MOST_RECORDS;
use std::alloc::Allocator;
use std::marker::Model;
use std::mem;

/// A decoder of one stream. Contracts see what it keeps of the bytes that were fed to it; `StandsFor` names those
/// bytes.
#[derive(Debug, Drop)]
pub struct Decoder {
    limit: u32,
    header: Option<Header>,
    count: u32,
    held: ArrayVec<u8, LONG_RECORD_LENGTH>,
    stop: Stop,
}

impl Model for Decoder {
    ghost use Rattle.gr_record.specs.Decoding.{Standing, IsStanding};

    ghost Value = { Standing };

    ghost view = { λ d. record { limit = d.limit; header = d.header; count = d.count; held = d.held.items; stop = d.stop } };

    ghost invariant = { λ d. IsStanding (record { limit = d.limit; header = d.header; count = d.count; held = d.held.items; stop = d.stop }) };
}

/// Adds a part.
fn push<A: Allocator>(parts: &mut Vec<Part, A>, part: Part)
    requires { vec_len parts.old < vec_capacity parts.old }
    ensures parts { parts.new.items ≡ parts.old.items ++ part ∷ [] }
    ensures len { vec_len parts.new ≡ vec_len parts.old + 1 }
    ensures capacity { vec_capacity parts.old ≤ vec_capacity parts.new }
{
    let _ = parts.push(part);
}

/// Why reading stops after this record, or that it goes on.
fn stop_behind(event: &Event) -> Stop
    ensures { result ≡ stop_behind (is_end event.now) }
{
    if event.kind.is_end() {
        Stop::AtEnd
    } else {
        Stop::Inside
    }
}

impl Decoder {
    /// A decoder of a stream of at most `MOST_RECORDS` records.
    pub fn new() -> Decoder
        ensures limit { result.limit ≡ MOST_RECORDS }
        ensures nothing { StandsFor result [] }
    {
        Decoder::with_limit(MOST_RECORDS as u32)
    }

    /// A decoder of a stream of at most `records` records.
    /// Requires: `records` is 1 to `MOST_RECORDS`.
    #[tactic(auto, unfolding(crate::specs::Decoding::read_from))]
    pub fn with_limit(records: u32) -> Decoder
        requires some { 1 ≤ records }
        requires most { records ≤ MOST_RECORDS }
        ensures limit { result.limit ≡ records }
        ensures nothing { StandsFor result [] }
    {
        Decoder {
            limit: records,
            header: None,
            count: 0,
            held: ArrayVec::new(),
            stop: Stop::Inside,
        }
    }

    /// How many bytes the header or the record that comes next has.
    fn unit(&self) -> usize
        ensures length { result ≡ unit_length self.now.header }
        ensures some { 0 < result }
        ensures few { result ≤ LONG_RECORD_LENGTH }
    {
        match self.header {
            None => HEADER_LENGTH,
            Some(header) => header.version.record_length(),
        }
    }

    /// How many bytes are missing to the end of the header or record that comes next; 0 after the end and after a
    /// fault.
    pub fn wants(&self) -> usize
        ensures { result ≡ missing self.now }
    {
        match self.stop {
            Stop::Inside => self.unit() - self.held.len(),
            Stop::AtEnd | Stop::AtFault(_) => 0,
        }
    }

    /// Whether the stream is still to go on.
    fn is_inside(&self) -> bool
        ensures inside { IsTrue result ↔ (self.now.stop ≡ Inside) }
        ensures over { IsFalse result → self.now.held ≡ [] }
    {
        matches!(self.stop, Stop::Inside)
    }

    /// How many headers and records `bytes` more bytes may complete.
    fn units_in(&self, bytes: usize) -> usize
        requires { bytes < 2 ^ 63 }
        ensures { result ≡ units_in self.now.header (length self.now.held + bytes) }
    {
        let bytes = self.held.len() + bytes;
        match self.header {
            None if bytes < HEADER_LENGTH => 0,
            None => 1 + (bytes - HEADER_LENGTH) / RECORD_LENGTH,
            Some(header) => bytes / header.version.record_length(),
        }
    }

    /// Takes a whole header.
    /// Requires: the stream is to go on with its header; no bytes are kept; `unit` has `HEADER_LENGTH` bytes; there is
    /// room for the part.
    fn take_header<A: Allocator>(&mut self, unit: &[u8], parts: &mut Vec<Part, A>)
        requires place { (self.old.stop ≡ Inside) × (self.old.header ≡ None) × (self.old.held ≡ []) }
        requires whole { length unit.now ≡ HEADER_LENGTH }
        requires room { vec_len parts.old < vec_capacity parts.old }
        ensures continues { (rest : List ℕ) → Continues self.old (unit.now ++ rest) parts.old.items self.new rest parts.new.items }
        ensures held { self.new.held ≡ [] }
        ensures header { self.new.stop ≡ Inside → IsSome self.new.header }
        ensures len { vec_len parts.new ≤ vec_len parts.old + 1 }
        ensures capacity { vec_capacity parts.old ≤ vec_capacity parts.new }
    {
        match read_header(unit) {
            Ok(header) => {
                self.header = Some(header);
                push(parts, Part::Header(header));
            }
            Err(error) => self.stop = Stop::AtFault(error),
        }
    }

    /// Takes a whole record.
    /// Requires: the stream is to go on, and this header of it was read; no bytes are kept; `unit` has the bytes of a
    /// record; there is room for the part.
    fn take_record<A: Allocator>(&mut self, header: Header, unit: &[u8], parts: &mut Vec<Part, A>)
        requires place { (self.old.stop ≡ Inside) × (self.old.header ≡ Some header) × (self.old.held ≡ []) }
        requires whole { length unit.now ≡ record_length header.version }
        requires room { vec_len parts.old < vec_capacity parts.old }
        ensures continues { (rest : List ℕ) → Continues self.old (unit.now ++ rest) parts.old.items self.new rest parts.new.items }
        ensures held { self.new.held ≡ [] }
        ensures header { self.new.header ≡ self.old.header }
        ensures len { vec_len parts.new ≤ vec_len parts.old + 1 }
        ensures capacity { vec_capacity parts.old ≤ vec_capacity parts.new }
    {
        if self.count == self.limit {
            self.stop = Stop::AtFault(RecordError::TooManyRecords);
            return;
        }
        match read_event(header, unit) {
            Ok(event) => {
                self.count += 1;
                self.stop = stop_behind(&event);
                push(parts, Part::Event(event));
            }
            Err(error) => self.stop = Stop::AtFault(error),
        }
    }

    /// Takes a whole header or record.
    /// Requires: the stream is to go on; no bytes are kept; `unit` is a whole header or record, whichever comes next;
    /// there is room for the part.
    fn take_unit<A: Allocator>(&mut self, unit: &[u8], parts: &mut Vec<Part, A>)
        requires place { (self.old.stop ≡ Inside) × (self.old.held ≡ []) }
        requires whole { length unit.now ≡ unit_length self.old.header }
        requires room { vec_len parts.old < vec_capacity parts.old }
        ensures continues { (rest : List ℕ) → Continues self.old (unit.now ++ rest) parts.old.items self.new rest parts.new.items }
        ensures held { self.new.held ≡ [] }
        ensures header { self.new.stop ≡ Inside → IsSome self.new.header }
        ensures stays { (h : Header) → self.old.header ≡ Some h → self.new.header ≡ Some h }
        ensures len { vec_len parts.new ≤ vec_len parts.old + 1 }
        ensures capacity { vec_capacity parts.old ≤ vec_capacity parts.new }
    {
        match self.header {
            None => self.take_header(unit, parts),
            Some(header) => self.take_record(header, unit, parts),
        }
    }

    /// Keeps bytes that make no whole header or record.
    /// Requires: the stream is to go on, and the bytes make none with those that are kept already.
    fn hold(&mut self, bytes: &[u8])
        requires inside { self.old.stop ≡ Inside }
        requires few { length self.old.held + length bytes.now < unit_length self.old.header }
        ensures kept { self.new ≡ record { limit = self.old.limit; header = self.old.header; count = self.old.count; held = self.old.held ++ bytes.now; stop = self.old.stop } }
    {
        let _ = self.held.try_extend_from_slice(bytes);
    }

    /// Takes the headers and records that lie whole in a piece, and returns the bytes after them.
    /// Requires: no bytes are kept; if the stream is to go on, there is room for the parts.
    fn take_whole<'p, A: Allocator>(
        &mut self,
        piece: &'p [u8],
        parts: &mut Vec<Part, A>,
    ) -> &'p [u8]
        requires held { self.old.held ≡ [] }
        requires room { self.old.stop ≡ Inside → vec_len parts.old + units_in self.old.header (length piece.now) ≤ vec_capacity parts.old }
        ensures continues { Continues self.old piece.now parts.old.items self.new result.now parts.new.items }
        ensures held { self.new.held ≡ [] }
        ensures few { self.new.stop ≡ Inside → length result.now < unit_length self.new.header }
    {
        let mut rest = piece;
        while self.is_inside() && self.unit() <= rest.len() {
            let (unit, after) = rest.split_at(self.unit());
            self.take_unit(unit, parts);
            rest = after;
        }
        rest
    }

    /// Takes the bytes that are left of a piece: what is not whole yet is kept, and after an end any byte is a fault.
    /// Requires: no bytes are kept; if the stream is to go on, these make no whole header or record.
    fn keep(&mut self, rest: &[u8])
        requires held { self.old.held ≡ [] }
        requires few { self.old.stop ≡ Inside → length rest.now < unit_length self.old.header }
        ensures { (listed : List Part) → Continues self.old rest.now listed self.new [] listed }
    {
        match self.stop {
            Stop::Inside => self.hold(rest),
            Stop::AtEnd if rest.is_empty() => {}
            Stop::AtEnd => self.stop = Stop::AtFault(RecordError::AfterEnd),
            Stop::AtFault(_) => {}
        }
    }

    /// Completes the header or record at hand from a piece, and returns the bytes after it.
    /// Requires: the stream is to go on; the piece has the bytes that are missing to it; there is room for the parts.
    fn complete<'p, A: Allocator>(&mut self, piece: &'p [u8], parts: &mut Vec<Part, A>) -> &'p [u8]
        requires inside { self.old.stop ≡ Inside }
        requires enough { missing self.old ≤ length piece.now }
        requires room { vec_len parts.old + units_in self.old.header (length self.old.held + length piece.now) ≤ vec_capacity parts.old }
        ensures continues { Continues self.old piece.now parts.old.items self.new result.now parts.new.items }
        ensures held { self.new.held ≡ [] }
        ensures room { self.new.stop ≡ Inside → vec_len parts.new + units_in self.new.header (length result.now) ≤ vec_capacity parts.new }
    {
        if self.held.is_empty() {
            return piece;
        }
        let (missing, rest) = piece.split_at(self.wants());
        let mut unit = mem::replace(&mut self.held, ArrayVec::new());
        let _ = unit.try_extend_from_slice(missing);
        self.take_unit(unit.as_slice(), parts);
        rest
    }

    /// Takes a piece of the stream.
    /// Requires: the stream is to go on, and there is room for the parts.
    fn take_piece<A: Allocator>(&mut self, piece: &[u8], parts: &mut Vec<Part, A>)
        requires inside { self.old.stop ≡ Inside }
        requires room { vec_len parts.old + units_in self.old.header (length self.old.held + length piece.now) ≤ vec_capacity parts.old }
        ensures { Continues self.old piece.now parts.old.items self.new [] parts.new.items }
    {
        if piece.len() < self.wants() {
            self.hold(piece);
        } else {
            let rest = self.complete(piece, parts);
            let rest = self.take_whole(rest, parts);
            self.keep(rest);
        }
    }

    /// Takes the next piece of the stream, and adds to `parts` each header and record that this piece completes.
    ///
    /// # Errors
    /// The first fault of the stream, at the piece that has it and at each later one; the parts before it are added.
    /// `Memory` if an allocation is refused, which comes before any fault of the piece; the decoder and `parts`
    /// are then unchanged.
    ///
    /// # Example
    /// ```rust
    /// // `stream` has 72 bytes: a header, two records and an end.
    /// let mut decoder = Decoder::new();
    /// let mut parts = Vec::new(rt.alloc());
    /// decoder.feed(&stream[..31], &mut parts)?;
    /// assert_eq!(rt; parts.len(), 1);
    /// decoder.feed(&stream[31..], &mut parts)?;
    /// assert_eq!(rt; parts.len(), 4);
    /// decoder.finish()?;
    /// ```
    pub fn feed<A: Allocator>(
        &mut self,
        piece: &[u8],
        parts: &mut Vec<Part, A>,
    ) -> Result<(), RecordError>
        // It is the decoder of all bytes that were fed to it, however they were cut into pieces.
        ensures stands { HasMemory result → (fed : List ℕ) → StandsFor self.old fed → StandsFor self.new (fed ++ piece.now) }
        // The parts of what is read with the piece and was not read without it are added.
        ensures parts { HasMemory result → (fed : List ℕ) → StandsFor self.old fed
            → GrowsAs (parts_of (reading self.old.limit fed)) (parts_of (reading self.old.limit (fed ++ piece.now))) parts.old.items parts.new.items }
        // The fault, if there is one.
        ensures fault { HasMemory result → result ≡ answer self.new.stop }
        ensures limit { self.new.limit ≡ self.old.limit }
        ensures memory { result ≡ Err OutOfMemory → (self.new ≡ self.old) × (parts.new.items ≡ parts.old.items) }
        // A decoder that has failed, or has met the end, grows nothing; nor does one whose list has room for all that the
        // piece may complete.
        ensures over { self.old.stop ≢ Inside → HasMemory result }
        ensures room { vec_len parts.old + units_in self.old.header (length self.old.held + length piece.now) ≤ vec_capacity parts.old → HasMemory result }
    {
        if self.is_inside() {
            parts.reserve(self.units_in(piece.len()))?;
            self.take_piece(piece, parts);
        } else {
            self.keep(piece);
        }
        match self.stop {
            Stop::Inside | Stop::AtEnd => Ok(()),
            Stop::AtFault(error) => Err(error),
        }
    }

    /// Says that no bytes follow.
    ///
    /// # Errors
    /// The first fault of the stream; `Truncated` if there is none and the end did not come. It takes no memory.
    pub fn finish(&self) -> Result<(), RecordError>
        ensures exact { result ≡ last_answer self.now.stop }
        ensures memory { result ≢ Err OutOfMemory }
    {
        match self.stop {
            Stop::Inside => Err(RecordError::Truncated),
            Stop::AtEnd => Ok(()),
            Stop::AtFault(error) => Err(error),
        }
    }
}
