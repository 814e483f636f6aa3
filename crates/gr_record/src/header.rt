//! What comes before the records of a stream (docs/FORMATS.md, "Stream").

ghost use Rattle.std.specs.Prelude.{◌≡◌, ◌<◌, ◌≤◌};
ghost use Rattle.gr_record.specs.Prelude.{places, has_sites, record_length, most_groups, most_items};

use crate::layout::{LONG_RECORD_LENGTH, RECORD_LENGTH};
use gr_model::limits::{
    FEW_GROUPS, FEW_ITEMS_OF_A_GROUP, MOST_GROUPS, MOST_ITEMS_OF_A_GROUP, MOST_NAMES,
};

/// The version of a stream, which says how many names its records have room for, and how large its launch may be.
#[derive(Clone, Copy, Debug, PartialEq, Eq)]
pub enum Version {
    /// A record has room for one name. The launch has at most `FEW_GROUPS` groups, each of at most `FEW_ITEMS_OF_A_GROUP`
    /// items.
    One,
    /// A record has room for `MOST_NAMES` names. The launch is as with version 1.
    Two,
    /// A record has room for one name, and says its site. The launch has at most `MOST_GROUPS` groups, each of at most
    /// `MOST_ITEMS_OF_A_GROUP` items.
    Three,
    /// A record has room for `MOST_NAMES` names, and says its site. The launch is as with version 3.
    Four,
}

/// The header of a stream: its version, its work-group, how many work-items the group has, and its launch.
#[derive(Clone, Copy, Debug, PartialEq, Eq)]
pub struct Header {
    /// The version of the stream.
    pub version: Version,
    /// The number of the work-group, below the version's `most_groups`.
    pub group: u16,
    /// How many work-items the group has: 1 to the version's `most_items`.
    pub items: u16,
    /// A number that all streams of one launch have.
    pub launch: u32,
}

impl Version {
    /// How many names a record has room for.
    pub fn places(self) -> usize
        ensures { result ≡ places self }
    {
        match self {
            Version::One | Version::Three => 1,
            Version::Two | Version::Four => MOST_NAMES,
        }
    }

    /// Whether a record has the number of its site.
    pub fn has_sites(self) -> bool
        ensures { result ≡ has_sites self }
    {
        matches!(self, Version::Three | Version::Four)
    }

    /// How many work-groups a launch may have.
    pub fn most_groups(self) -> usize
        ensures groups { result ≡ most_groups self }
        ensures few { result ≤ MOST_GROUPS }
    {
        match self {
            Version::One | Version::Two => FEW_GROUPS,
            Version::Three | Version::Four => MOST_GROUPS,
        }
    }

    /// How many work-items a work-group may have.
    pub fn most_items(self) -> u16
        ensures items { result ≡ most_items self }
        ensures few { result ≤ MOST_ITEMS_OF_A_GROUP }
    {
        match self {
            Version::One | Version::Two => FEW_ITEMS_OF_A_GROUP,
            Version::Three | Version::Four => MOST_ITEMS_OF_A_GROUP,
        }
    }

    /// How many bytes a record has.
    pub fn record_length(self) -> usize
        ensures length { result ≡ record_length self }
        ensures some { 0 < result }
        ensures few { result ≤ LONG_RECORD_LENGTH }
    {
        match self {
            Version::One | Version::Three => RECORD_LENGTH,
            Version::Two | Version::Four => LONG_RECORD_LENGTH,
        }
    }
}
