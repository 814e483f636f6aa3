//! Why reading stops where it does.

use crate::error::RecordError;

/// Why reading stops: before bytes that are no whole header or record yet, after an end, or at a fault.
#[derive(Clone, Copy, Debug, PartialEq, Eq)]
pub(crate) enum Stop {
    Inside,
    AtEnd,
    AtFault(RecordError),
}
