//! How each access of a history relates to those above it: what text and JSON show of the clocks. No clause speaks of it.
//!
//! For each work-group, it is kept how many of its accesses the clock of the last access counts. The next clock is compared group by group.
//! It is compared item by item only if the group's counts may differ: not if both clocks count none of its accesses, nor if the
//! later one comes after the earlier and that counts them all.

use crate::entry::Entry;
use gr_clocks::clock::Clock;
use gr_model::class::{Class, exempt};
use gr_model::event::{EventId, ItemId};
use gr_model::memory::Memory;
use indexmap::IndexMap;
use std::alloc::{Allocator, Global};
use std::hash::{BuildHasherDefault, FoldHasher};

/// At most so many events are named.
const MOST_NAMED: usize = 8;

/// Some events: the first few by name, and how many there are.
#[derive(Drop)]
#[derive_where(Debug, PartialEq)]
pub struct Named<A: Allocator = Global> {
    /// The first few.
    pub events: Vec<EventId, A>,
    /// How many others there are.
    pub others: usize,
}

/// How an access relates to those above it.
#[derive(Drop)]
#[derive_where(Debug)]
pub struct Standing<A: Allocator = Global> {
    /// Those with which it races.
    pub races: Named<A>,
    /// Those that do not happen before it, and with which it does not race.
    pub unordered: Named<A>,
    /// How many happen before it.
    pub behind: usize,
}

/// The accesses of one item and class: their indices, ascending, and how many of them the last clock counts.
#[derive(Drop)]
struct Trail<A: Allocator> {
    class: Class,
    indices: Vec<u32, A>,
    counted: usize,
}

/// How many accesses of a class there are, and how many of them the last clock counts.
#[derive(Clone, Copy)]
struct ClassCount {
    class: Class,
    all: usize,
    counted: usize,
}

/// How many accesses there are in all and of each class, and how many of them the last clock counts.
#[derive(Drop)]
struct ClassCounts<A: Allocator> {
    classes: Vec<ClassCount, A>,
    all: usize,
    counted: usize,
}

/// A map that keeps the order in which its keys came.
type Map<K, V, A> = IndexMap<K, V, BuildHasherDefault<FoldHasher>, A>;

/// The accesses of a group, by items and by classes.
#[derive(Drop)]
struct GroupAbove<A: Allocator> {
    items: Map<u16, Vec<Trail<A>, A>, A>,
    counts: ClassCounts<A>,
}

/// The accesses of a history that are above the next one.
#[derive(Drop)]
pub struct Above<A: Allocator = Global> {
    groups: Map<u16, GroupAbove<A>, A>,
    counts: ClassCounts<A>,
    last: Option<EventId>,
}

impl<A: Allocator + Copy> Named<A> {
    /// So many events, none of them by name.
    fn new(alloc: A, others: usize) -> Named<A> {
        let events = Vec::new(alloc);
        Named { events, others }
    }

    /// How many there are.
    pub fn count(&self) -> usize {
        self.events.len().saturating_add(self.others)
    }

    /// Whether no more of them are to be named.
    fn is_full(&self) -> bool {
        self.others == 0 || self.events.len() >= MOST_NAMED
    }

    /// Names the events of a trail that the last clock does not count, while there is room.
    fn name(&mut self, at: ItemId, trail: &Trail<A>) -> Result<(), Memory> {
        for index in trail.indices.iter().skip(trail.counted) {
            if self.is_full() {
                break;
            }
            self.events.push(EventId { at, index: *index })?;
            self.others = self.others.saturating_sub(1);
        }
        Ok(())
    }
}

impl<A: Allocator + Copy> Standing<A> {
    /// Whether another access relates to those above it as this one does: it races with the same ones, and the same do not happen before it.
    pub fn is_like(&self, other: &Standing<A>) -> bool {
        self.races == other.races
            && self.unordered == other.unordered
            && (self.behind == 0) == (other.behind == 0)
    }

    /// Whether no more accesses are to be named.
    fn is_named(&self) -> bool {
        self.races.is_full() && self.unordered.is_full()
    }
}

impl<A: Allocator> Trail<A> {
    /// Whether a clock that counts so many events of the item can count another number of these. It counts all where the last one did and
    /// it counts the last of them.
    fn may_change(&self, events: u32) -> bool {
        self.counted < self.indices.len() || self.indices.last().is_some_and(|last| *last >= events)
    }
}

impl<A: Allocator + Copy> ClassCounts<A> {
    fn new(alloc: A) -> ClassCounts<A> {
        ClassCounts {
            classes: Vec::new(alloc),
            all: 0,
            counted: 0,
        }
    }

    /// Adds an access, which the last clock counts.
    fn add(&mut self, class: Class) -> Result<(), Memory> {
        match self.classes.iter().position(|count| count.class == class) {
            Some(place) => self.classes[place].all = self.classes[place].all.saturating_add(1),
            None => self.classes.push(ClassCount {
                class,
                all: 1,
                counted: 0,
            })?,
        }
        self.all = self.all.saturating_add(1);
        self.recount(class, 0, 1);
        Ok(())
    }

    /// Corrects the counts: of some accesses of a class, the last clock counts `after`, and the one before it counted `before`.
    fn recount(&mut self, class: Class, before: usize, after: usize) {
        self.counted = self.counted.saturating_sub(before).saturating_add(after);
        if let Some(count) = self.classes.iter_mut().find(|count| count.class == class) {
            count.counted = count.counted.saturating_sub(before).saturating_add(after);
        }
    }

    /// How many accesses the last clock does not count: of those that never race with an access of this class and group if they are of
    /// the group `at`, or of those that can.
    fn uncounted(&self, at: u16, class: Class, group: u16, is_exempt: bool) -> usize {
        self.classes
            .iter()
            .filter(|count| exempt(count.class, at, class, group) == is_exempt)
            .map(|count| count.all.saturating_sub(count.counted))
            .fold(0, |sum: usize, count| sum.saturating_add(count))
    }
}

impl<A: Allocator + Copy> GroupAbove<A> {
    /// Adds an access, which the last clock counts.
    fn add(&mut self, alloc: A, item: u16, index: u32, class: Class) -> Result<(), Memory> {
        self.counts.add(class)?;
        let trails = self.items.entry(item)?.or_insert(Vec::new(alloc));
        let place = trails.iter().position(|trail| trail.class == class);
        let place = place.unwrap_or(trails.len());
        if place == trails.len() {
            let indices = Vec::new(alloc);
            trails.push(Trail {
                class,
                indices,
                counted: 0,
            })?;
        }
        trails[place].indices.push(index)?;
        trails[place].counted = trails[place].indices.len();
        Ok(())
    }

    /// Takes what a clock counts of the group's items in place of what the last one did.
    fn turn_all(&mut self, group: u16, clock: &Clock<A>, launch: &mut ClassCounts<A>) {
        for (item, trails) in self.items.iter_mut() {
            let at = ItemId { group, item: *item };
            turn(trails, clock.get(at), &mut self.counts, launch);
        }
    }

    /// Names accesses that the last clock does not count, those that can race with an access of this class and other group apart from the rest.
    fn name(
        &self,
        group: u16,
        class: Class,
        other: u16,
        standing: &mut Standing<A>,
    ) -> Result<(), Memory> {
        for (item, trails) in self.items.iter() {
            if standing.is_named() {
                break;
            }
            let at = ItemId { group, item: *item };
            for trail in trails {
                if exempt(trail.class, group, class, other) {
                    standing.unordered.name(at, trail)?;
                } else {
                    standing.races.name(at, trail)?;
                }
            }
        }
        Ok(())
    }
}

/// Takes so many counted events of an item in place of those that the last clock counts.
fn turn<A: Allocator + Copy>(
    trails: &mut [Trail<A>],
    events: u32,
    group: &mut ClassCounts<A>,
    launch: &mut ClassCounts<A>,
) {
    for trail in trails.iter_mut().filter(|trail| trail.may_change(events)) {
        let counted = trail.indices.partition_point(|index| *index < events);
        group.recount(trail.class, trail.counted, counted);
        launch.recount(trail.class, trail.counted, counted);
        trail.counted = counted;
    }
}

impl<A: Allocator + Copy> Above<A> {
    /// No accesses.
    pub fn new(alloc: A) -> Above<A> {
        Above {
            groups: IndexMap::new(alloc),
            counts: ClassCounts::new(alloc),
            last: None,
        }
    }

    /// Takes what a clock counts of an item in place of what the last one did. Gives how many accesses of the item there are, if there
    /// is one.
    fn turn_item(&mut self, at: ItemId, clock: &Clock<A>) -> Option<usize> {
        let group = self.groups.get_mut(&at.group)?;
        let trails = group.items.get_mut(&at.item)?;
        turn(trails, clock.get(at), &mut group.counts, &mut self.counts);
        let counts = trails.iter().map(|trail| trail.indices.len());
        Some(counts.fold(0, |sum: usize, count| sum.saturating_add(count)))
    }

    /// Takes what the clock of an access counts in place of what the last one did.
    fn turn_to(&mut self, entry: &Entry<A>) {
        let (at, clock) = (entry.event.at, &entry.clock);
        let mut is_later = false;
        if let Some(last) = self.last {
            is_later = clock.covers(last.at, last.index);
            if last.at != at {
                self.turn_item(last.at, clock);
            }
        }
        let own = self.turn_item(at, clock).unwrap_or(0);
        if self.counts.counted == own && clock.lacks_all(at) {
            return;
        }
        for (number, group) in self.groups.iter_mut() {
            let own = if *number == at.group { own } else { 0 };
            let has_none = group.counts.counted == own && clock.lacks(*number, at);
            let has_all = is_later && group.counts.counted == group.counts.all;
            if !has_none && !has_all {
                group.turn_all(*number, clock, &mut self.counts);
            }
        }
    }

    /// How many accesses the last clock does not count: of those that never race with an access of this class and group, or of those that
    /// can.
    fn uncounted(&self, class: Class, group: u16, is_exempt: bool) -> usize {
        if self.counts.counted == self.counts.all {
            return 0;
        }
        let another = u16::from(group == 0);
        let as_others = self.counts.uncounted(another, class, group, is_exempt);
        match self.groups.get(&group) {
            None => as_others,
            Some(mine) => as_others
                .saturating_sub(mine.counts.uncounted(another, class, group, is_exempt))
                .saturating_add(mine.counts.uncounted(group, class, group, is_exempt)),
        }
    }

    /// Names the first accesses that the last clock does not count.
    fn name(&self, class: Class, group: u16, standing: &mut Standing<A>) -> Result<(), Memory> {
        for (number, above) in self.groups.iter() {
            if standing.is_named() {
                break;
            }
            let has = |is_exempt| above.counts.uncounted(*number, class, group, is_exempt) > 0;
            if !standing.races.is_full() && has(false)
                || !standing.unordered.is_full() && has(true)
            {
                above.name(*number, class, group, standing)?;
            }
        }
        Ok(())
    }

    /// Adds an access of a class, and says how it relates to those above it.
    ///
    /// # Errors
    /// `Memory`: out of memory.
    pub fn add(&mut self, alloc: A, entry: &Entry<A>, class: Class) -> Result<Standing<A>, Memory> {
        self.turn_to(entry);
        let EventId { at, index } = entry.event;
        let mut standing = Standing {
            races: Named::new(alloc, self.uncounted(class, at.group, false)),
            unordered: Named::new(alloc, self.uncounted(class, at.group, true)),
            behind: self.counts.counted,
        };
        self.name(class, at.group, &mut standing)?;
        let group = self.groups.entry(at.group)?;
        let group = group.or_insert_with(|| GroupAbove {
            items: IndexMap::new(alloc),
            counts: ClassCounts::new(alloc),
        });
        group.add(alloc, at.item, index, class)?;
        self.counts.add(class)?;
        self.last = Some(entry.event);
        Ok(standing)
    }
}
