//! A piece of what waits of a stream: some of its records, one after the other.
//!
//! Invariant: after the records that were read, there is a list of names for each that has some.

ghost use Rattle.std.specs.Prelude.{◌≡◌, ◌∷◌, ◌++◌, [], IfOk, MatchOption, OnErr, OnOk};

use crate::short::{Short, next_names};
use gr_model::event::Event;
use gr_model::memory::Memory;
use gr_model::names::Names;
use std::alloc::{Allocator, Global};
use std::marker::Model;

/// How many records a piece has room for.
const PIECE_LENGTH: usize = 4096;

/// Some records that wait. Contracts see those that were not read yet.
#[derive(Drop)]
#[derive_where(Debug)]
pub(crate) struct Piece<A: Allocator = Global> {
    shorts: Vec<Short, A>,
    /// How many of them were read.
    read: usize,
    /// The releases that the records name, a list for each record that has some.
    names: Vec<Names, A>,
    /// How many lists of these were read.
    names_read: usize,
}

impl<A: Allocator> Model for Piece<A> {
    ghost use Rattle.std.specs.Prelude.{◌≤◌, List, drop, length};
    ghost use Rattle.gr_model.specs.declared.event.Event.{Event};
    ghost use Rattle.gr_intake.specs.Waiting.{AreNamed, listed};

    ghost Value = { List Event };

    ghost view = { λ p. listed (drop p.read p.shorts.items) (drop p.names_read p.names.items) };

    ghost invariant = { λ p. AreNamed (drop p.read p.shorts.items) (drop p.names_read p.names.items) × (p.read ≤ length p.shorts.items) × (p.names_read ≤ length p.names.items) };
}

impl<A: Allocator + Copy> Piece<A> {
    /// A piece without records.
    #[tactic(auto, using(crate::proofs::Backlogs::none_yet))]
    pub(crate) fn new(alloc: A) -> Result<Piece<A>, Memory>
        ensures { IfOk result (λ p. p ≡ []) }
    {
        let shorts = Vec::with_capacity(alloc, PIECE_LENGTH)?;
        Ok(Piece {
            shorts,
            read: 0,
            names: Vec::new(alloc),
            names_read: 0,
        })
    }
}

impl<A: Allocator> Piece<A> {
    /// Whether there is room for one more record.
    pub(crate) fn has_room(&self) -> bool {
        self.shorts.len() < PIECE_LENGTH
    }

    /// Adds a record.
    ///
    /// # Errors
    /// `Memory`: out of memory. The piece is then as it was.
    #[inline(always)]
    #[tactic(auto, using(crate::proofs::Backlogs::plain_pushed, crate::proofs::Backlogs::no_names))]
    pub(crate) fn push(&mut self, event: &Event) -> Result<(), Memory>
        ensures ok { OnOk result (self.new ≡ self.old ++ event.now ∷ []) }
        ensures err { OnErr result (self.new ≡ self.old) }
    {
        if !event.names.as_slice().is_empty() {
            return self.push_naming(event);
        }
        self.shorts.reserve(1)?;
        self.shorts.push_reserved(Short::of(event, false));
        Ok(())
    }

    /// Adds a record that names releases.
    ///
    /// # Errors
    /// `Memory`: out of memory. The piece is then as it was.
    #[tactic(auto, using(crate::proofs::Backlogs::naming_pushed))]
    fn push_naming(&mut self, event: &Event) -> Result<(), Memory>
        ensures ok { OnOk result (self.new ≡ self.old ++ event.now ∷ []) }
        ensures err { OnErr result (self.new ≡ self.old) }
    {
        self.shorts.reserve(1)?;
        self.names.reserve(1)?;
        self.shorts.push_reserved(Short::of(event, true));
        self.names.push_reserved(event.names);
        Ok(())
    }

    /// The first record that was not read yet. After the last one the piece takes no memory.
    #[inline(always)]
    #[tactic(auto, using(crate::proofs::Backlogs::none_listed, crate::proofs::Backlogs::first_plain, std::proofs::lemmas::Bool::Decides::nat_tests))]
    pub(crate) fn next(&mut self) -> Option<Event>
        ensures { MatchOption result ((self.old ≡ []) × (self.new ≡ self.old)) (λ e. self.old ≡ e ∷ self.new) }
    {
        let short = *self.shorts.get(self.read)?;
        if short.has_names {
            return self.next_naming();
        }
        self.read += 1;
        self.give_back();
        Some(short.with_names(Names::none()))
    }

    /// Like `next`, for a record that may name releases.
    #[inline(never)]
    #[tactic(auto, using(crate::proofs::Backlogs::none_listed, crate::proofs::Backlogs::first_taken, std::proofs::lemmas::Bool::Decides::nat_tests))]
    fn next_naming(&mut self) -> Option<Event>
        ensures { MatchOption result ((self.old ≡ []) × (self.new ≡ self.old)) (λ e. self.old ≡ e ∷ self.new) }
    {
        let short = *self.shorts.get(self.read)?;
        let (names, names_read) = next_names(&self.names, self.names_read, short.has_names);
        self.read += 1;
        self.names_read = names_read;
        self.give_back();
        Some(short.with_names(names))
    }

    /// Gives the memory back where all records were read.
    #[inline(always)]
    fn give_back(&mut self)
        ensures { self.new ≡ self.old }
    {
        if self.read == self.shorts.len() {
            self.shorts.clear();
            self.shorts.shrink_to_fit();
            self.names.clear();
            self.names.shrink_to_fit();
            self.read = 0;
            self.names_read = 0;
        }
    }
}
