//! When a group's turn to have records taken is over, and when what waits is looked at. Neither changes what is found.
//!
//! Where work-items wait for a barrier, their later records wait too, unless the barrier is handled as soon as it can be. So
//! what waits is looked at when the last item has come to a barrier, as it mostly does last; when another event than a mere
//! access has come to wait, since it may go; and else when as many events have come to wait as the group has items.

use gr_model::event::{Event, Kind};

/// How many records a group takes in its turn at most.
pub const MOST_IN_TURN: u32 = 4096;

/// A turn of a group.
#[derive(Clone, Copy, Debug, PartialEq, Eq)]
pub struct Turn {
    items: u16,
    /// How many events were held when it began, of all groups.
    first: u64,
    /// How many events came to wait since what waits was last looked at.
    waiting: u16,
    /// How many events were held then.
    held: u64,
    /// How many more than before each look were held behind it, in all.
    behind: u64,
}

impl Turn {
    /// A turn of a group of so many items, before which so many events of all groups are held.
    pub fn new(items: u16, held: u64) -> Turn {
        Turn {
            items,
            first: held,
            waiting: 0,
            held,
            behind: 0,
        }
    }

    /// Whether what waits is to be looked at, where an event has come to wait.
    pub fn is_to_look(&mut self, event: &Event) -> bool {
        self.waiting = self.waiting.saturating_add(1);
        self.waiting >= self.items || self.is_telling(event)
    }

    /// Whether an event that has come to wait may go, or lets others go.
    fn is_telling(&self, event: &Event) -> bool {
        match event.kind {
            Kind::Read | Kind::Write => false,
            Kind::Barrier {
                global: _,
                local: _,
            } => event.item.saturating_add(1) == self.items,
            Kind::Load(_, _) | Kind::Store(_, _) | Kind::Rmw(_, _) | Kind::End { cut: _ } => true,
        }
    }

    /// What waits was looked at, and so many events are held now.
    pub fn note_look(&mut self, held: u64) {
        self.behind = self.behind.saturating_add(held.saturating_sub(self.held));
        self.held = held;
        self.waiting = 0;
    }

    /// Whether so many events came to wait, and wait still, that those behind them are better kept aside: twice as many as
    /// the group has items, since each item may have come to a barrier with one event behind it.
    pub fn is_stuck(&self) -> bool {
        self.held.saturating_sub(self.first) >= 2 * u64::from(self.items)
    }

    /// Whether the group waits for others: as many events of it as it has items.
    pub fn is_over(&self) -> bool {
        self.behind >= u64::from(self.items)
    }
}
