//! The steps that can be made.

use gr_model::event::ItemId;

/// A step that nothing holds up.
#[derive(Clone, Copy, Debug, PartialEq, Eq)]
pub enum Ready {
    /// The item's next event may be handled.
    Item(ItemId),
    /// The group's next instance may meet.
    Group(u16),
}
