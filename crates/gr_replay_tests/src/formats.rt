//! Records and reports: values that no file gives.

mod facts;
mod reports;
