//! What is kept of the accesses of one class to a word.

ghost use Rattle.std.specs.Prelude.{◌≡◌, OnOk, OnErr, ◌++◌, ◌∷◌, [], IsTrue, ◌↔◌};
ghost use Rattle.std.specs.List.{All, list_any};
ghost use Rattle.gr_shadow.specs.Keeps.{Keeps, touch_clashes, kept_group, IsOfClass, all_touches, is_unseen};
ghost use Rattle.gr_shadow.specs.Lent.{lent_clocked};

use crate::lent::LentAccess;
use crate::touch::Touch;
use gr_model::class::{Class, exempt};
use gr_model::memory::Memory;
use std::alloc::{Allocator, Global};
use std::marker::Model;

/// The group by which touches of a class are kept apart: the group of their item where the class has group scope, and else 0.
fn kept_group(class: Class, group: u16) -> u16
    ensures { result ≡ kept_group class group }
{
    match class {
        Class::GroupRead | Class::GroupModify => group,
        Class::PlainRead | Class::PlainWrite | Class::DeviceRead | Class::DeviceModify => 0,
    }
}

/// How many touches a list may have before it is compacted for the first time.
const FEW: usize = 16;

/// Leaves one touch of each item and class, that with the greatest index.
fn compact<A: Allocator>(touches: &mut Vec<Touch, A>)
    ensures { Keeps touches.new.items touches.old.items }
{
    touches.sort_unstable_by_key(|touch| touch.item);
    touches.dedup_by(|next, kept| kept.takes(next));
}

/// Whether one of these touches is of another item than a later access, and its clock does not count it.
fn has_unseen<A: Allocator>(touches: &[Touch], access: &LentAccess<'_, A>) -> bool
    ensures { result ≡ list_any (is_unseen (lent_clocked access.now)) touches.now }
{
    touches.iter().any(|touch| touch.is_unseen(access))
}

/// Touches of one class, and where it has group scope of one group: so all of them are exempt with a later access, or
/// none. A touch is added without a search. A list that has grown to its limit is compacted, and the limit is then
/// four times its length, so that it is never longer than four times the number of items in it, or `FEW`.
#[derive(Drop)]
#[derive_where(Debug)]
pub(crate) struct Touches<A: Allocator = Global> {
    class: Class,
    group: u16,
    touches: Vec<Touch, A>,
    limit: usize,
}

impl<A: Allocator> Model for Touches<A> {
    ghost use Rattle.std.specs.List.{All};
    ghost use Rattle.gr_shadow.specs.Keeps.{TouchList, IsOfClass};

    ghost Value = { TouchList };

    ghost view = { λ s. record { class = s.class; group = s.group; touches = s.touches.items } };

    ghost invariant = { λ s. All (IsOfClass s.class s.group) s.touches.items };
}

impl<A: Allocator> Touches<A> {
    /// No touches, for those that belong with this one.
    pub(crate) fn new(alloc: A, touch: &Touch) -> Touches<A>
        ensures touches { result.touches ≡ [] }
        ensures has { IsOfClass result.class result.group touch.now }
    {
        Touches {
            class: touch.class,
            group: kept_group(touch.class, touch.item.group),
            touches: Vec::new(alloc),
            limit: FEW,
        }
    }

    /// Whether a touch belongs here.
    pub(crate) fn has(&self, touch: &Touch) -> bool
        ensures { IsTrue result ↔ IsOfClass self.now.class self.now.group touch.now }
    {
        self.class == touch.class && self.group == kept_group(touch.class, touch.item.group)
    }

    /// Whether a later access to the same word clashes with one of these.
    pub(crate) fn clash(&self, access: &LentAccess<'_, A>) -> bool
        ensures { result ≡ list_any (touch_clashes (lent_clocked access.now)) self.now.touches }
    {
        !exempt(self.class, self.group, access.class, access.item.group)
            && has_unseen(&self.touches, access)
    }

    /// Keeps a touch.
    /// Requires: it belongs here (`has`).
    #[tactic(auto, using(std::proofs::lemmas::Result::err_from_is_err_and))]
    #[inline(always)]
    pub(crate) fn add(&mut self, touch: Touch) -> Result<(), Memory>
        requires { IsOfClass self.old.class self.old.group touch }
        ensures kept { OnOk result (Keeps self.new.touches (self.old.touches ++ touch ∷ [])) }
        ensures err { OnErr result (self.new ≡ self.old) }
    {
        self.touches.push(touch)?;
        if self.touches.len() >= self.limit {
            compact(&mut self.touches);
            self.limit = self.touches.len().saturating_mul(4).max(FEW);
        }
        Ok(())
    }
}

/// Whether a later access to the same word clashes with a touch of these lists.
pub(crate) fn clashes_in_lists<A: Allocator>(
    lists: &[Touches<A>],
    access: &LentAccess<'_, A>,
) -> bool
    ensures { result ≡ list_any (touch_clashes (lent_clocked access.now)) (all_touches lists.now) }
{
    for list in lists {
        if list.clash(access) {
            return true;
        }
    }
    false
}

/// Keeps a touch in the list to which it belongs.
#[tactic(auto, using(std::proofs::lemmas::Result::err_from_is_err_and))]
pub(crate) fn put<A: Allocator + Copy>(
    lists: &mut Vec<Touches<A>, A>,
    touch: Touch,
) -> Result<(), Memory>
    ensures kept { OnOk result (Keeps (all_touches lists.new.items) (all_touches lists.old.items ++ touch ∷ [])) }
    ensures err { OnErr result (lists.new.items ≡ lists.old.items) }
{
    match lists.iter().position(|list| list.has(&touch)) {
        Some(place) => lists[place].add(touch),
        None => {
            let mut list = Touches::new(*lists.allocator(), &touch);
            list.add(touch)?;
            lists.push(list)?;
            Ok(())
        }
    }
}
