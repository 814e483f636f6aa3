//! What goes through a queue in one step: one value, or several.
//!
//! A push costs the threads on both sides of a queue the same for one value as for several. So a thread that has several values
//! pushes them in one step: they wait in an `Outbox` and go through the queue as one `Batch`. On the other side they are read in
//! the batch, or taken one by one from a `Rest`. The list that held them is then used again (`Spares`).

ghost use Rattle.std.specs.Prelude.{◌≡◌, ◌<◌, ◌+◌, ◌≤◌, List, [], ◌∷◌, ◌++◌, drop, length, IfErr, IfNone, IfOk, IfSome, IsTrue, MatchOption, OnErr, OnOk};
ghost use Rattle.gr_route.specs.Batches as spec;

use std::alloc::{Allocator, Global};
use std::marker::Model;
use std::vec::IntoIter;

/// How many values wait at most until they are pushed.
const MOST_WAITING: usize = 256;

#[derive(Drop)]
enum Content<T, A: Allocator> {
    One(T),
    Several(Vec<T, A>),
}

/// Values that go through a queue in one step, in their order: at least one. Contracts see the list of them.
#[derive(Drop)]
pub struct Batch<T, A: Allocator = Global> {
    content: Content<T, A>,
    // A hint: these work-groups have ended.
    ended: Option<Vec<u16, A>>,
}

impl<T, A: Allocator> Model for Batch<T, A> {
    ghost use Rattle.std.specs.Prelude.{List, [], ◌≢◌};
    ghost use Rattle.gr_route.specs.Batches as spec;

    ghost Value = { List T };

    ghost view = { λ b. spec.values_in b.content };

    ghost invariant = { λ b. spec.values_in b.content ≢ [] };
}

impl<T: Drop, A: Allocator> Batch<T, A> {
    /// One value. It takes no memory.
    pub fn one(value: T) -> Batch<T, A>
        ensures { result ≡ value ∷ [] }
    {
        Batch {
            content: Content::One(value),
            ended: None,
        }
    }

    /// The values of a list, or `None` if it is empty. It takes no memory.
    pub fn of(values: Vec<T, A>) -> Option<Batch<T, A>>
        ensures some { IfSome result (λ batch. batch ≡ values.items) }
        ensures none { IfNone result (values.items ≡ []) }
    {
        if values.is_empty() {
            return None;
        }
        Some(Batch {
            content: Content::Several(values),
            ended: None,
        })
    }

    /// The batch, with the hint that these work-groups have ended: none of their values comes after this batch.
    pub fn with_ended(self, ended: Option<Vec<u16, A>>) -> Batch<T, A>
        ensures { result ≡ self }
    {
        Batch { ended, ..self }
    }

    /// The work-groups that have ended.
    pub fn ended(&self) -> &[u16] {
        match &self.ended {
            None => &[],
            Some(groups) => groups,
        }
    }

    /// How many values there are: at least one.
    pub fn len(&self) -> usize
        ensures count { result ≡ length self.now }
        ensures some { 0 < result }
    {
        match &self.content {
            Content::One(_) => 1,
            Content::Several(values) => values.len(),
        }
    }

    /// The value at a place.
    #[inline(always)]
    pub fn get(&self, place: usize) -> Option<&T>
        ensures { MatchOption result (length self.now ≤ place) (λ value. drop place self.now ≡ value.now ∷ drop (place + 1) self.now) }
    {
        match &self.content {
            Content::One(value) => (place == 0).then_some(value),
            Content::Several(values) => values.get(place),
        }
    }

    /// The last value.
    pub fn last(&self) -> &T
        ensures { (others : List T) × (self.now ≡ others ++ result.now ∷ []) }
    {
        match &self.content {
            Content::One(value) => value,
            Content::Several(values) => values.last().unwrap(),
        }
    }

    /// The list that holds the values, if there is one. Who fills it again drops them.
    pub fn into_list(self) -> Option<Vec<T, A>> {
        let Batch { content, ended: _ } = self;
        match content {
            Content::One(_) => None,
            Content::Several(values) => Some(values),
        }
    }

    /// The first value. The others are dropped.
    pub fn into_first(self) -> T
        ensures { (others : List T) × (self ≡ result ∷ others) }
    {
        let Batch { content, ended: _ } = self;
        match content {
            Content::One(value) => value,
            Content::Several(values) => values.into_iter().next().unwrap(),
        }
    }

    /// The first value. The others are left in `rest`.
    /// Requires: nothing was left there.
    pub fn open(self, rest: &mut Rest<T, A>) -> T
        requires { rest.old ≡ [] }
        ensures { self ≡ result ∷ rest.new }
    {
        let Batch { content, ended: _ } = self;
        match content {
            Content::One(value) => value,
            Content::Several(values) => {
                rest.values = values.into_iter();
                rest.values.next().unwrap()
            }
        }
    }
}

/// What is left of a batch that was opened. Contracts see the list of it.
#[derive(Drop)]
pub struct Rest<T, A: Allocator = Global> {
    values: IntoIter<T, A>,
}

impl<T, A: Allocator> Model for Rest<T, A> {
    ghost use Rattle.std.specs.Prelude.{List};
    ghost use Rattle.std.specs.Vec.Iter.{into_iter_items};

    ghost Value = { List T };

    ghost view = { λ r. into_iter_items r.values };
}

impl<T: Drop, A: Allocator> Rest<T, A> {
    /// Nothing is left.
    pub fn none(alloc: A) -> Rest<T, A>
        ensures { result ≡ [] }
    {
        Rest {
            values: Vec::new(alloc).into_iter(),
        }
    }

    /// The next value, if one is left.
    #[inline(always)]
    pub fn next(&mut self) -> Option<T>
        ensures some { IfSome result (λ value. self.old ≡ value ∷ self.new) }
        ensures none { IfNone result ((self.old ≡ []) × (self.new ≡ [])) }
    {
        self.values.next()
    }
}

/// Values that wait until they are pushed together. Contracts see the list of them.
#[derive(Drop)]
pub struct Outbox<T, A: Allocator = Global> {
    waiting: Option<Vec<T, A>>,
}

impl<T, A: Allocator> Model for Outbox<T, A> {
    ghost use Rattle.std.specs.Prelude.{List};
    ghost use Rattle.gr_route.specs.Batches as spec;

    ghost Value = { List T };

    ghost view = { λ o. spec.values_waiting o.waiting };
}

impl<T: Drop, A: Allocator> Outbox<T, A> {
    /// No value waits.
    pub fn new() -> Outbox<T, A>
        ensures { result ≡ [] }
    {
        Outbox { waiting: None }
    }

    /// Whether no value waits.
    pub fn is_empty(&self) -> bool
        ensures { IsTrue result → self.now ≡ [] }
    {
        match &self.waiting {
            Some(values) => values.is_empty(),
            None => true,
        }
    }

    /// Takes out all values, as one batch, or `None` where no value waits.
    pub fn take(&mut self) -> Option<Batch<T, A>>
        ensures some { IfSome result (λ batch. batch ≡ self.old) }
        ensures none { IfNone result (self.old ≡ []) }
        ensures empty { self.new ≡ [] }
    {
        Batch::of(self.waiting.take()?)
    }

    /// Lets the next values wait in this list, unless there is a list. What it holds is dropped.
    pub fn lend(&mut self, list: Vec<T, A>)
        ensures { self.new ≡ self.old }
    {
        if self.waiting.is_none() {
            let mut list = list;
            list.clear();
            self.waiting = Some(list);
        }
    }
}

impl<T: Drop, A: Allocator + Copy> Outbox<T, A> {
    /// Adds a value to those that wait.
    ///
    /// # Errors
    /// The value, if as many wait as may, or there is no memory for one more. It can be pushed after those that wait.
    #[inline(always)]
    pub fn add(&mut self, alloc: A, value: T) -> Result<(), T>
        ensures ok { OnOk result (self.new ≡ self.old ++ value ∷ []) }
        ensures err { IfErr result (λ back. back ≡ value) }
        ensures unchanged { OnErr result (self.new ≡ self.old) }
    {
        match &mut self.waiting {
            Some(values) => {
                if values.len() >= MOST_WAITING || values.reserve(1).is_err() {
                    return Err(value);
                }
                values.push_reserved(value);
                Ok(())
            }
            None => {
                self.waiting = Some(begun(alloc, value)?);
                Ok(())
            }
        }
    }
}

/// A list with a first value, and with room for all that may wait.
///
/// # Errors
/// The value, if there is no memory for the list.
#[cold]
fn begun<T: Drop, A: Allocator>(alloc: A, value: T) -> Result<Vec<T, A>, T>
    ensures ok { IfOk result (λ values. values.items ≡ value ∷ []) }
    ensures err { IfErr result (λ back. back ≡ value) }
{
    let Ok(mut values) = Vec::with_capacity(alloc, MOST_WAITING) else {
        return Err(value);
    };
    values.push_reserved(value);
    Ok(values)
}
