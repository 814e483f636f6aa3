//! The releases that an acquire names: none to four.
//!
//! Invariant: the names are in range, and in strictly ascending order.

ghost use Rattle.std.specs.Prelude.{◌≤◌, ◌≡◌, ◌↔◌, IsTrue, IsSome, IfSome, []};
ghost use Rattle.gr_model.specs.NameLists.{NameBelow, AreAscending, AreFewNames, AreNames, AreNamesWithin};

use crate::event::{ItemId, Name};
use crate::limits::{
    FEW_GROUPS, FEW_ITEMS_OF_A_GROUP, MOST_GROUPS, MOST_ITEMS_OF_A_GROUP, MOST_NAMES,
};
use std::marker::Model;

/// What the unused places hold.
const UNUSED: Name = Name {
    at: ItemId { group: 0, item: 0 },
    release: 0,
};

/// The releases that an acquire names: none to `MOST_NAMES`, in strictly ascending order of group, item and number, each
/// in range. Contracts see their list.
#[derive(Clone, Copy, Debug, PartialEq, Eq)]
pub struct Names {
    places: [Name; MOST_NAMES],
    count: u8,
}

impl Model for Names {
    ghost use Rattle.std.specs.Prelude.{List, length};
    ghost use Rattle.gr_model.specs.declared.event.Name.{Name};

    ghost Value = { List Name };

    ghost use Rattle.gr_model.specs.NamePlaces.{names_in, places_of, AreKept};

    ghost view = { λ a. names_in a.places a.count };

    ghost invariant = { λ a. AreKept a.places a.count };

    ghost inverse = { λ names. record { places = places_of names; count = length names } };

    ghost inverse_ok = { λ a h. λ i. record { places = h.filled i; count = h.counted i } };
}

/// Whether one name is below another: by group, then by item, then by number.
fn is_below(name: &Name, other: &Name) -> bool
    ensures { IsTrue result ↔ NameBelow name.now other.now }
{
    name < other
}

/// Whether each name is below the next one.
fn are_ascending(names: &[Name]) -> bool
    ensures { IsTrue result ↔ AreAscending names.now }
{
    for i in 1..names.len() {
        if !is_below(&names[i - 1], &names[i]) {
            return false;
        }
    }
    true
}

/// Whether these are names that one acquire may have in a launch of so many groups, each of so many items.
fn are_within(names: &[Name], groups: usize, items: u16) -> bool
    ensures { IsTrue result ↔ AreNamesWithin groups items names.now }
{
    names.len() <= MOST_NAMES
        && are_ascending(names)
        && names.iter().all(|name| name.is_within(groups, items))
}

impl Names {
    /// No names: what a record that is no acquire has, and an acquire that took the value of no release.
    pub const fn none() -> Names
        ensures { result ≡ [] }
    {
        Names {
            places: [UNUSED; MOST_NAMES],
            count: 0,
        }
    }

    /// These names, or `None` where they are more than `MOST_NAMES`, or not in strictly ascending order of group, item and
    /// number, or one of them is not in range: the group below `FEW_GROUPS`, the item below `FEW_ITEMS_OF_A_GROUP`, as
    /// streams of versions 1 and 2 have them, and the number below `MOST_RECORDS`.
    pub fn new(names: &[Name]) -> Option<Names>
        ensures some { IsSome result ↔ AreFewNames names.now }
        ensures names { IfSome result (λ n. n ≡ names.now) }
    {
        Names::within(names, FEW_GROUPS, FEW_ITEMS_OF_A_GROUP)
    }

    /// These names, or `None` where they are more than `MOST_NAMES`, or not in strictly ascending order of group, item and number, or one
    /// of them is not in range: the group and the item below these numbers, and the number below `MOST_RECORDS`.
    /// Requires: a launch may have so many groups, and a group so many items.
    #[tactic(auto, using(crate::proofs::Bounds::names_within))]
    pub fn within(names: &[Name], groups: usize, items: u16) -> Option<Names>
        requires groups { groups ≤ MOST_GROUPS }
        requires items { items ≤ MOST_ITEMS_OF_A_GROUP }
        ensures some { IsSome result ↔ AreNamesWithin groups items names.now }
        ensures names { IfSome result (λ n. n ≡ names.now) }
    {
        if !are_within(names, groups, items) {
            return None;
        }
        Some(Names::kept(names))
    }

    /// These names, which one acquire may have.
    fn kept(names: &[Name]) -> Names
        requires { AreNames names.now }
        ensures { result ≡ names.now }
    {
        let mut places = [UNUSED; MOST_NAMES];
        places[..names.len()].copy_from_slice(names);
        Names {
            places,
            count: names.len() as u8,
        }
    }

    /// The names, in ascending order.
    pub fn as_slice(&self) -> &[Name]
        ensures names { result.now ≡ self.now }
        ensures good { AreNames self.now }
    {
        &self.places[..usize::from(self.count)]
    }
}
