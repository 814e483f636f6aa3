//! The report of a launch as data, its text, and the lines of faults.
//!
//! The texts are docs/OUTPUT.md, "The report" and "Lines of faults"; docs/USING.md says what each line of a report means.
#![tactic(auto)]

mod fault_text;
pub mod putting;
pub mod report;
mod report_text;
pub mod rows;

pub use fault_text::{put_fault, write_fault};
pub use putting::WriteFault;
pub use report::found;
pub use report_text::write;
