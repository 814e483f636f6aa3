//! What is kept of an access.

ghost use Rattle.std.specs.Prelude.{◌≡◌, ◌↔◌, IsTrue, true, false, ◌++◌, ◌∷◌, []};
ghost use Rattle.std.specs.List.{list_any};
ghost use Rattle.gr_shadow.specs.Clashes.{clashes_with};
ghost use Rattle.gr_shadow.specs.Keeps.{Keeps, touch_of, touch_clashes, is_unseen};
ghost use Rattle.gr_shadow.specs.Lent.{lent_clocked};

use crate::lent::LentAccess;
use arrayvec::ArrayVec;
use gr_model::class::{Class, exempt};
use gr_model::event::ItemId;
use std::alloc::Allocator;

/// How many touches of a word are kept in its shadow itself.
pub(crate) const PLACES: usize = 2;

/// What is kept of an access: its epoch (its work-item, and its place in the item's trace) and its class.
#[derive(Clone, Copy, Debug)]
pub(crate) struct Touch {
    /// The work-item of the access.
    pub item: ItemId,
    /// The place of the access in the item's trace, from 0.
    pub index: u32,
    /// The class of the access.
    pub class: Class,
}

/// A touch for a place that is not in use.
impl Default for Touch {
    fn default() -> Touch {
        Touch {
            item: ItemId { group: 0, item: 0 },
            index: 0,
            class: Class::PlainRead,
        }
    }
}

impl Touch {
    /// What is kept of this access.
    pub(crate) fn of<A: Allocator>(access: &LentAccess<'_, A>) -> Touch
        ensures { result ≡ touch_of (lent_clocked access.now) }
    {
        Touch {
            item: access.item,
            index: access.index,
            class: access.class,
        }
    }

    /// Whether a later access is of another item, and its clock does not count this one.
    pub(crate) fn is_unseen<A: Allocator>(&self, access: &LentAccess<'_, A>) -> bool
        ensures { result ≡ is_unseen (lent_clocked access.now) self.now }
    {
        self.item != access.item && !access.clock.covers(self.item, self.index)
    }

    /// Whether a later access to the same word clashes with this one.
    pub(crate) fn clashes<A: Allocator>(&self, access: &LentAccess<'_, A>) -> bool
        ensures { result ≡ clashes_with self.now.item self.now.index self.now.class (lent_clocked access.now) }
    {
        self.item != access.item
            && !exempt(self.class, self.item.group, access.class, access.item.group)
            && !access.clock.covers(self.item, self.index)
    }

    /// Whether another touch is of the same item and class, so that the later of the two can replace both.
    fn is_like(&self, other: &Touch) -> bool
        ensures { IsTrue result ↔ ((self.now.item ≡ other.now.item) × (self.now.class ≡ other.now.class)) }
    {
        self.item == other.item && self.class == other.class
    }

    /// Becomes the later of two touches, if the other is of its item and class. Says whether it is.
    pub(crate) fn takes(&mut self, other: &Touch) -> bool
        ensures kept { result ≡ true → Keeps (self.new ∷ []) (self.old ∷ other.now ∷ []) }
        ensures other { result ≡ false → self.new ≡ self.old }
    {
        if !self.is_like(other) {
            return false;
        }
        if self.index < other.index {
            *self = *other;
        }
        true
    }
}

/// Whether an access clashes with one of these touches.
pub(crate) fn clashes_with_one<A: Allocator>(touches: &[Touch], access: &LentAccess<'_, A>) -> bool
    ensures { result ≡ list_any (touch_clashes (lent_clocked access.now)) touches.now }
{
    touches.iter().any(|touch| touch.clashes(access))
}

/// Keeps a touch if there is one of its item and class, and says whether there is.
pub(crate) fn keep_among(touches: &mut ArrayVec<Touch, PLACES>, touch: &Touch) -> bool
    ensures kept { result ≡ true → Keeps touches.new.items (touches.old.items ++ touch.now ∷ []) }
    ensures other { result ≡ false → touches.new ≡ touches.old }
{
    let place = touches.iter().position(|kept| kept.is_like(touch));
    match place {
        Some(place) => match touches.get_mut(place) {
            Some(kept) => kept.takes(touch),
            None => false,
        },
        None => false,
    }
}
