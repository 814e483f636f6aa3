//! How many bytes a header and a record have (docs/FORMATS.md, "Stream").

/// The bytes of a header.
pub const HEADER_LENGTH: usize = 12;

/// The bytes of a record of version 1.
pub const RECORD_LENGTH: usize = 20;

/// The bytes of a record of version 2.
pub const LONG_RECORD_LENGTH: usize = 44;

/// The bytes of a record before its names.
pub(crate) const FIELDS_LENGTH: usize = 12;

/// The bytes of a place for a name.
pub(crate) const NAME_LENGTH: usize = 8;
