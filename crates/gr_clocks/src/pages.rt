//! The counts of all items in pages of 256 work-groups each, which clocks share: where one group's counts change, only its page
//! is made anew.

ghost use Rattle.std.specs.Prelude.{[], ◌≡◌, ◌+◌, ◌/◌, ◌∷◌, ◌++◌, ◌<◌, IfOk, OnOk, IsOkUnless, length, set};
ghost use Rattle.gr_clocks.specs.declared.clock.ClockError.TheVariants.{Memory as OutOfMemory};
ghost use Rattle.gr_clocks.specs.Counts.{Counts};
ghost use Rattle.gr_clocks.specs.Pages.{in_page, page_at};

use crate::clock::ClockError;
use crate::page::Page;
use gr_model::event::ItemId;
use std::alloc::{Allocator, Global};
use std::marker::Model;
use std::sync::Arc;

/// Pages of counts. Contracts see their list.
#[derive(Drop)]
#[derive_where(Debug)]
pub(crate) struct Pages<A: Allocator = Global> {
    pages: Vec<Arc<Page<A>, A>, A>,
}

impl<A: Allocator> Model for Pages<A> {
    ghost use Rattle.std.specs.Prelude.{List, map};
    ghost use Rattle.gr_clocks.specs.Counts.{Counts};

    ghost Value = { List Counts };

    ghost view = { λ p. map (λ page. page.value) p.pages.items };
}

/// The item in its page.
pub(crate) fn in_page(item: ItemId) -> ItemId
    ensures { result ≡ in_page item }
{
    ItemId {
        group: item.group % 256,
        item: item.item,
    }
}

impl<A: Allocator> Pages<A> {
    /// No pages. They take no memory.
    pub(crate) fn none(alloc: A) -> Pages<A>
        ensures { result ≡ [] }
    {
        Pages {
            pages: Vec::new(alloc),
        }
    }

    /// How many pages there are.
    pub(crate) fn len(&self) -> usize
        ensures { result ≡ length self.now }
    {
        self.pages.len()
    }

    /// The page at this place.
    pub(crate) fn at(&self, place: usize) -> &Page<A>
        requires { place < length self.now }
        ensures { result.now ≡ page_at self.now place }
    {
        &self.pages[place]
    }

    /// The page at this place once more, shared.
    pub(crate) fn shared(&self, place: usize) -> Result<Arc<Page<A>, A>, ClockError>
        requires { place < length self.now }
        ensures page { IfOk result (λ p. p.value ≡ page_at self.now place) }
        ensures memory { IsOkUnless result ClockError.Memory }
    {
        Ok(Arc::try_clone(&self.pages[place])?)
    }

    /// Adds a page after the others.
    pub(crate) fn push(&mut self, page: Arc<Page<A>, A>) -> Result<(), ClockError>
        ensures pushed { OnOk result (self.new ≡ self.old ++ page.value ∷ []) }
        ensures memory { IsOkUnless result ClockError.Memory }
    {
        self.pages.push(page)?;
        Ok(())
    }
}

impl<A: Allocator + Clone> Pages<A> {
    /// Its allocator.
    pub(crate) fn alloc(&self) -> Result<A, ClockError>
        ensures memory { IsOkUnless result ClockError.Memory }
    {
        Ok(self.pages.allocator().clone()?)
    }

    /// Puts a page in the place of another.
    pub(crate) fn put(&mut self, place: usize, page: Page<A>) -> Result<(), ClockError>
        requires { place < length self.old }
        ensures put { OnOk result (self.new ≡ set self.old place page) }
        ensures memory { IsOkUnless result ClockError.Memory }
    {
        self.pages[place] = Arc::new(self.alloc()?, page)?;
        Ok(())
    }
}
