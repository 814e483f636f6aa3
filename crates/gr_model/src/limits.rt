//! The limits of a launch. Each is cited by the clauses that rest on it.

/// The greatest number of work-groups in a launch.
pub const MOST_GROUPS: usize = 65_535;

/// The greatest number of work-items in a work-group.
pub const MOST_ITEMS_OF_A_GROUP: u16 = 1_024;

/// The greatest number of work-items in a launch.
pub const MOST_ITEMS: u32 = 67_107_840;

/// The greatest number of work-groups in a launch whose streams are of versions 1 and 2.
pub const FEW_GROUPS: usize = 64;

/// The greatest number of work-items in a work-group whose stream is of version 1 or 2.
pub const FEW_ITEMS_OF_A_GROUP: u16 = 256;

/// The greatest number of records in a work-group's stream, its end included.
pub const MOST_RECORDS: usize = 16_777_216;

/// The greatest number of releases that an acquire may name.
pub const MOST_NAMES: usize = 4;

/// The greatest number of workers of a run.
pub const MOST_WORKERS: u16 = 8;

/// The greatest number of intake queues of a run.
pub const MOST_QUEUES: u16 = 4;

/// The greatest number of values that a queue may have room for.
pub const MOST_PLACES: u32 = 65_536;
