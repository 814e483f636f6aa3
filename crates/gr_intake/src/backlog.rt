//! What waits of a stream, in pieces, so that memory is given back piece by piece.
//!
//! Invariant: nothing waits in the pieces before the one that is read.

ghost use Rattle.std.specs.Prelude.{◌≡◌, ◌⊎◌, ◌+◌, ◌++◌, ◌∷◌, [], IfOk, MatchOption, OnErr, OnOk, length};
ghost use Rattle.gr_intake.specs.Waiting.{with_waiting};

use crate::piece::Piece;
use gr_model::event::Event;
use gr_model::memory::Memory;
use gr_record::header::Header;
use gr_taking::source::Source;
use std::alloc::{Allocator, Global};
use std::marker::Model;

/// The records of a stream that have come and were not taken, first come, first served. Contracts see the stream's header and
/// the records.
#[derive(Drop)]
#[derive_where(Debug)]
pub struct Backlog<A: Allocator = Global> {
    #[derive_where(skip)]
    alloc: A,
    header: Header,
    pieces: Vec<Piece<A>, A>,
    /// The piece that is read.
    first: usize,
}

impl<A: Allocator> Model for Backlog<A> {
    ghost use Rattle.std.specs.List.{flat_map};
    ghost use Rattle.gr_intake.specs.Waiting.{ArePieces, Coming};

    ghost Value = { Coming };

    ghost view = { λ b. record { header = b.header; waiting = flat_map (λ p. p) b.pieces.items } };

    ghost invariant = { λ b. ArePieces b.pieces.items b.first };
}

/// The place of the last of the pieces, which has room for one more record.
fn last_with_room<A: Allocator + Copy>(
    alloc: A,
    pieces: &mut Vec<Piece<A>, A>,
) -> Result<usize, Memory>
    ensures place { IfOk result (λ p. p + 1 ≡ length pieces.new.items) }
    ensures grown { OnOk result ((pieces.new.items ≡ pieces.old.items) ⊎ (pieces.new.items ≡ pieces.old.items ++ [] ∷ [])) }
    ensures unchanged { OnErr result (pieces.new.items ≡ pieces.old.items) }
{
    if let Some(piece) = pieces.last() {
        if piece.has_room() {
            return Ok(pieces.len() - 1);
        }
    }
    pieces.push(Piece::new(alloc)?)?;
    Ok(pieces.len() - 1)
}

impl<A: Allocator + Copy> Backlog<A> {
    /// A stream with this header, where no record has come. It takes no memory.
    pub fn new(alloc: A, header: Header) -> Backlog<A>
        ensures { result ≡ record { header = header; waiting = [] } }
    {
        Backlog {
            alloc,
            header,
            pieces: Vec::new(alloc),
            first: 0,
        }
    }

    /// Adds the stream's next record after those that wait.
    ///
    /// # Errors
    /// `Memory`: out of memory. The backlog is then as it was.
    pub fn push(&mut self, event: &Event) -> Result<(), Memory>
        ensures ok { OnOk result (self.new ≡ with_waiting self.old event.now) }
        ensures err { OnErr result (self.new ≡ self.old) }
    {
        let last = last_with_room(self.alloc, &mut self.pieces)?;
        self.first = self.first.min(last);
        self.pieces[last].push(event)?;
        Ok(())
    }
}

impl<A: Allocator> Backlog<A> {
    /// The header of the stream.
    pub fn header(&self) -> Header
        ensures { result ≡ self.now.header }
    {
        self.header
    }

    /// The record that has waited longest, which then waits no more, or `None` where none waits.
    pub fn next(&mut self) -> Option<Event>
        ensures { MatchOption result ((self.old.waiting ≡ []) × (self.new ≡ self.old)) (λ e. self.old ≡ record { header = self.new.header; waiting = e ∷ self.new.waiting }) }
    {
        while self.first < self.pieces.len() {
            if let Some(event) = self.pieces[self.first].next() {
                return Some(event);
            }
            self.first += 1;
        }
        None
    }
}

impl<A: Allocator> Source for Backlog<A> {
    type Header = Header;

    ghost header = { λ b. b.header };

    ghost group_of = { λ h. h.group };

    ghost coming = { λ b. b.waiting };

    fn group(&self) -> u16 {
        self.header.group
    }

    fn items(&self) -> u16 {
        self.header.items
    }

    fn next(&mut self) -> Option<Event> {
        Backlog::next(self)
    }
}
