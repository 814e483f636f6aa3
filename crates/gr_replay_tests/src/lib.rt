//! Tests alone: facts of records, streams and answers, and reports and faults that no file has.
#![tactic(auto)]

#[cfg(test)]
mod each;
#[cfg(test)]
mod facts;
#[cfg(test)]
mod formats;
