//! The places of many events, found without a search through all lines.

ghost use Rattle.std.specs.Prelude.{◌≡◌, IfOk, map};
ghost use Rattle.std.specs.Option.{option_map};
ghost use Rattle.gr_places.specs.PlaceIndexes as spec;
ghost use Rattle.gr_places.specs.SideLines.{place_line};

use crate::places::{PlaceLine, Placed};
use gr_model::memory::Memory;
use indexmap::IndexMap;
use std::alloc::{Allocator, Global};
use std::hash::{BuildHasherDefault, FoldHasher};
use std::marker::Model;

/// The place of each event and site.
type Texts<'a, A> = IndexMap<Placed, &'a str, BuildHasherDefault<FoldHasher>, A>;

/// The number of each text.
type Numbers<'a, A> = IndexMap<&'a str, usize, BuildHasherDefault<FoldHasher>, A>;

/// The places that the lines of a file give, and their numbers. Two places have the same number if and only if they have the same text.
#[derive(Drop)]
#[derive_where(Debug)]
pub struct PlaceIndex<'a, A: Allocator = Global> {
    texts: Texts<'a, A>,
    numbers: Numbers<'a, A>,
}

impl<'a, A: Allocator> Model for PlaceIndex<'a, A> {
    ghost use Rattle.gr_places.specs.PlaceIndexes.{Indexed};

    ghost Value = { Indexed };

    ghost view = { λ s. record { texts = s.texts.entries; numbers = s.numbers.entries } };
}

impl<'a, A: Allocator + Copy> PlaceIndex<'a, A> {
    /// The index of the lines of a file of places. It is made from the last line to the first, so the first line of an event, a site or a
    /// text counts.
    ///
    /// # Errors
    /// `Memory`: out of memory.
    pub fn of(alloc: A, lines: &[PlaceLine<'a>]) -> Result<PlaceIndex<'a, A>, Memory>
        ensures { IfOk result (λ index. spec.Indexes index (map place_line lines.now)) }
    {
        let (mut texts, mut numbers) = (IndexMap::new(alloc), IndexMap::new(alloc));
        let mut left = lines.len();
        while left > 0 {
            left -= 1;
            texts.insert(lines[left].of, lines[left].text)?;
            numbers.insert(lines[left].text, left)?;
        }
        Ok(PlaceIndex { texts, numbers })
    }
}

impl<'a, A: Allocator> PlaceIndex<'a, A> {
    /// The place of an event or a site, or `None` if no line has it.
    pub fn place_of(&self, placed: Placed) -> Option<&'a str>
        ensures kept { result ≡ spec.text_in self.now.texts placed }
        ensures place { option_map (λ text. text.now) result ≡ spec.place_at self.now placed }
    {
        self.texts.get(&placed).copied()
    }

    /// The number of the place of an event or a site, or `None` if no line has it: how many lines come before the first line
    /// with the same text.
    #[tactic(auto, unfolding(gr_text::specs::LineReading::same))]
    pub fn number_of(&self, placed: Placed) -> Option<usize>
        ensures { result ≡ spec.number_at self.now placed }
    {
        let text = self.place_of(placed)?;
        self.numbers.get(&text).copied()
    }
}
