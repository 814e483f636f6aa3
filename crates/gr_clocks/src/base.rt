//! The counts of all items, which clocks share. An item of which nothing is counted may have no count here.

ghost use Rattle.std.specs.Prelude.{IsTrue, ◌≡◌, ◌+◌, ◌/◌, ◌<◌, ◌≤◌, All, IfOk, OnOk, IsOkUnless, [], length, max, slice_index_or};
ghost use Rattle.gr_clocks.specs.declared.clock.ClockError.TheVariants.{Memory as OutOfMemory};
ghost use Rattle.gr_model.specs.declared.event.ItemId.{ItemId as AnyItem};
ghost use Rattle.gr_clocks.specs.Counts.{count_of, CountSame, IsJoin};
ghost use Rattle.gr_clocks.specs.Owned.{IsRaisedBy, IsRaisedTo};
ghost use Rattle.gr_clocks.specs.Pages.{page_at, in_page, whole};

use crate::block::count_at;
use crate::clock::{ClockError, LARGEST_COUNT};
use crate::page::Page;
use crate::pages::{Pages, in_page};
use gr_model::event::ItemId;
use std::alloc::{Allocator, Global};
use std::marker::Model;
use std::sync::Arc;

/// The counts of all items. Contracts see one list of counts for each work-group.
#[derive(Drop)]
#[derive_where(Debug)]
pub(crate) struct Base<A: Allocator = Global> {
    pages: Pages<A>,
}

impl<A: Allocator> Model for Base<A> {
    ghost use Rattle.gr_clocks.specs.Counts.{Counts};
    ghost use Rattle.gr_clocks.specs.Pages.{whole};

    ghost Value = { Counts };

    ghost view = { λ b. whole b.pages };
}

/// Makes pages until there are so many.
#[tactic(auto, using(crate::proofs::PageLemmas::push_page))]
fn reach<A: Allocator + Clone>(pages: &mut Pages<A>, count: usize) -> Result<(), ClockError>
    ensures same { OnOk result (CountSame (whole pages.new) (whole pages.old)) }
    ensures there { OnOk result (count ≤ length pages.new) }
    ensures memory { IsOkUnless result ClockError.Memory }
{
    if pages.len() < count {
        let none = Arc::new(pages.alloc()?, Page::none(pages.alloc()?))?;
        while pages.len() < count {
            pages.push(Arc::try_clone(&none)?)?;
        }
    }
    Ok(())
}

/// The page at a place, with the greater count of each item: one of the two pages, shared, where no count of the other is above it.
#[tactic(auto, using(crate::proofs::PageLemmas::page_joins))]
fn joined_page<A: Allocator + Clone>(
    mine: &Pages<A>,
    theirs: &Pages<A>,
    place: usize,
) -> Result<Arc<Page<A>, A>, ClockError>
    requires { place < max (length mine.now) (length theirs.now) }
    ensures join { IfOk result (λ p. IsJoin (page_at mine.now place) (page_at theirs.now place) p.value) }
    ensures memory { IsOkUnless result ClockError.Memory }
{
    if place >= theirs.len() {
        return mine.shared(place);
    }
    if place >= mine.len() || mine.at(place).is_within(theirs.at(place)) {
        return theirs.shared(place);
    }
    if theirs.at(place).is_within(mine.at(place)) {
        return mine.shared(place);
    }
    let page = mine.at(place).joined(theirs.at(place))?;
    Ok(Arc::new(mine.alloc()?, page)?)
}

impl<A: Allocator> Base<A> {
    /// No counts at all.
    #[tactic(auto, using(crate::proofs::PageLemmas::count_none))]
    pub(crate) fn none(alloc: A) -> Base<A>
        ensures { (i : AnyItem) → count_of result i ≡ 0 }
    {
        Base {
            pages: Pages::none(alloc),
        }
    }

    /// The counts of a group's items, as far as there are some.
    #[tactic(auto, using(crate::proofs::PageLemmas::row_whole, crate::proofs::PageLemmas::row_past))]
    pub(crate) fn row(&self, group: u16) -> &[u32]
        ensures counts { result.now ≡ slice_index_or self.now group [] }
        ensures limit { All (λ n. n ≤ LARGEST_COUNT) result.now }
    {
        let place = usize::from(group / 256);
        if place < self.pages.len() {
            self.pages.at(place).row(group % 256)
        } else {
            &[]
        }
    }

    /// How many events of the item are counted; 0 where there is no such item.
    pub(crate) fn get(&self, item: ItemId) -> u32
        ensures count { result ≡ count_of self.now item }
        ensures limit { result ≤ LARGEST_COUNT }
    {
        count_at(self.row(item.group), item.item)
    }

    /// Whether it is sure that nothing is counted of the group's items.
    #[tactic(auto, using(crate::proofs::PageLemmas::none_of, crate::proofs::PageLemmas::count_past))]
    pub(crate) fn lacks(&self, group: u16) -> bool
        ensures { IsTrue result → (j : AnyItem) → j.group ≡ group → count_of self.now j ≡ 0 }
    {
        let place = usize::from(group / 256);
        place >= self.pages.len() || self.pages.at(place).lacks(group % 256)
    }

    /// Whether it is sure that nothing is counted.
    #[tactic(auto, using(crate::proofs::PageLemmas::count_past))]
    pub(crate) fn is_zero(&self) -> bool
        ensures { IsTrue result → (j : AnyItem) → count_of self.now j ≡ 0 }
    {
        self.pages.len() == 0
    }
}

impl<A: Allocator + Clone> Base<A> {
    /// Its allocator.
    pub(crate) fn alloc(&self) -> Result<A, ClockError>
        ensures memory { IsOkUnless result ClockError.Memory }
    {
        self.pages.alloc()
    }

    /// The same counts once more, shared.
    pub(crate) fn copy(&self) -> Result<Base<A>, ClockError>
        ensures copy { IfOk result (λ b. b ≡ self.now) }
        ensures memory { IsOkUnless result ClockError.Memory }
    {
        let mut pages = Pages::none(self.alloc()?);
        for place in 0..self.pages.len() {
            pages.push(self.pages.shared(place)?)?;
        }
        Ok(Base { pages })
    }

    /// Takes this count of an item, where it is greater than the one there.
    #[tactic(auto, using(crate::proofs::PageLemmas::raised_behind))]
    pub(crate) fn raise_to(&mut self, item: ItemId, count: u32) -> Result<(), ClockError>
        requires { count ≤ LARGEST_COUNT }
        ensures raised { OnOk result (IsRaisedTo self.old item count self.new) }
        ensures memory { IsOkUnless result ClockError.Memory }
    {
        let place = usize::from(item.group / 256);
        reach(&mut self.pages, place + 1)?;
        let mut page = self.pages.at(place).copy()?;
        page.raise_to(in_page(item), count)?;
        self.pages.put(place, page)
    }

    /// Takes these counts of a group's items, each where it is greater than the one there.
    #[tactic(auto, using(crate::proofs::PageLemmas::raised_all_behind))]
    pub(crate) fn raise_by(&mut self, group: u16, counts: Vec<u32, A>) -> Result<(), ClockError>
        requires { All (λ n. n ≤ LARGEST_COUNT) counts.items }
        ensures raised { OnOk result (IsRaisedBy self.old group counts.items self.new) }
        ensures memory { IsOkUnless result ClockError.Memory }
    {
        let place = usize::from(group / 256);
        reach(&mut self.pages, place + 1)?;
        let mut page = self.pages.at(place).copy()?;
        page.raise_by(group % 256, counts)?;
        self.pages.put(place, page)
    }

    /// The greater count of each item, in pages that are shared where one of the two pages has it.
    pub(crate) fn joined(&self, other: &Base<A>) -> Result<Base<A>, ClockError>
        ensures join { IfOk result (λ b. IsJoin self.now other.now b) }
        ensures memory { IsOkUnless result ClockError.Memory }
    {
        let mut pages = Pages::none(self.alloc()?);
        for place in 0..self.pages.len().max(other.pages.len()) {
            pages.push(joined_page(&self.pages, &other.pages, place)?)?;
        }
        Ok(Base { pages })
    }
}
