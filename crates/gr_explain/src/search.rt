//! The search for the least racing pair of a word, along the order in which events are handled.

ghost use Rattle.std.specs.Prelude.{◌≡◌, ◌⊎◌, [], OnOk, Some};
ghost use Rattle.gr_shadow.specs.Clashes.{event_of};
ghost use Rattle.gr_shadow.specs.Lent.{lent_clocked};
ghost use Rattle.gr_explain.specs.LeastRaces.{IsLeastOf};
ghost use Rattle.gr_explain.specs.Search.{IsAdded, IsPairOf, IsSeenMore, StandsFor};

use crate::seen::Seen;
use gr_model::event::{EventId, Word};
use gr_model::memory::Memory;
use gr_shadow::lent::LentAccess;
use std::alloc::{Allocator, Global};

/// The accesses to a word that came so far, and the least pair of them that races.
#[derive(Drop)]
#[derive_where(Debug)]
pub(crate) struct Search<A: Allocator = Global> {
    /// The accesses of each class that came.
    pub(crate) classes: Vec<Seen<A>, A>,
    /// The least pair, if there is one.
    pub(crate) least: Option<(EventId, EventId)>,
}

/// Adds an access to those of its class.
fn put<A: Allocator + Copy>(
    classes: &mut Vec<Seen<A>, A>,
    access: &LentAccess<'_, A>,
) -> Result<(), Memory>
    ensures { OnOk result (IsSeenMore classes.old.items (event_of (lent_clocked access.now)) access.now.class classes.new.items) }
{
    match classes.iter().position(|seen| seen.has(access)) {
        Some(place) => classes[place].add(access),
        None => {
            let mut seen = Seen::new(*classes.allocator(), access.class);
            seen.add(access)?;
            classes.push(seen)?;
            Ok(())
        }
    }
}

/// The least of these pairs: the least one so far, if there is one, and those of a later access with the accesses with which it clashes.
fn least_with<A: Allocator>(
    classes: &[Seen<A>],
    access: &LentAccess<'_, A>,
    least: Option<(EventId, EventId)>,
) -> Option<(EventId, EventId)>
    ensures { IsLeastOf (λ p. (least ≡ Some p) ⊎ IsPairOf classes.now (lent_clocked access.now) p) result }
{
    let mut least = least;
    for seen in classes {
        least = seen.with_pairs(access, least);
    }
    least
}

impl<A: Allocator + Copy> Search<A> {
    /// No accesses.
    pub(crate) fn new(alloc: A) -> Search<A>
        ensures { (w : Word) → StandsFor w [] result }
    {
        Search {
            classes: Vec::new(alloc),
            least: None,
        }
    }

    /// Adds an access, if it is to the word. It comes after all others.
    pub(crate) fn add(&mut self, word: Word, access: &LentAccess<'_, A>) -> Result<(), Memory>
        ensures { OnOk result (IsAdded word (lent_clocked access.now) self.old self.new) }
    {
        if access.word == word {
            self.least = least_with(&self.classes, access, self.least);
            put(&mut self.classes, access)?;
        }
        Ok(())
    }
}
