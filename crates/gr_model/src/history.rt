//! A list that exists in proofs alone. It takes no bytes, and grows at its end.

ghost use Rattle.std.specs.Prelude.{◌≡◌, [], ◌∷◌, ◌++◌};

use std::fmt::{self, Debug, Formatter, Write};
use std::marker::Model;
use std::mem;
use std::snapshot::Snapshot;

/// A list as clauses see it: empty, or a list and one element after it. Its parts are snapshots, so only its tag takes bytes.
#[derive(Drop)]
enum Past<T> {
    Nothing,
    Then(Snapshot<Past<T>>, Snapshot<T>),
}

/// A list that exists in proofs alone and takes no bytes. Contracts see the list; no code can read it.
#[derive(Drop)]
pub struct History<T> {
    past: Snapshot<Past<T>>,
}

impl<T> Model for History<T> {
    ghost use Rattle.std.specs.Prelude.{List};

    ghost Value = { List T };

    ghost use Rattle.gr_model.specs.Histories.{listed};

    ghost view = { λ h. listed h.past.value };
}

impl<T> History<T> {
    /// The empty list.
    pub fn new() -> History<T>
        ensures { result ≡ [] }
    {
        History {
            past: Snapshot::of(&Past::Nothing),
        }
    }

    /// Adds an element at the end of the list. The element stays the caller's.
    pub fn push(&mut self, element: &T)
        ensures { self.new ≡ self.old ++ element.now ∷ [] }
    {
        let before = mem::replace(&mut self.past, Snapshot::of(&Past::Nothing));
        self.past = Snapshot::of(&Past::Then(before, Snapshot::of(element)));
    }
}

impl<T> Debug for History<T> {
    fn fmt<W: Write>(&self, f: &mut Formatter<W>) -> fmt::Result {
        f.write_str("History")
    }
}

const _: () = prove!(size_of::<History<u64>>() == 0);
