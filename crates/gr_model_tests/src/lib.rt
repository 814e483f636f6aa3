//! Tests of the model and of the crates that need only it: clocks and barrier instances with each growth refused in turn, what contracts
//! say of some values, and small worked examples of the definitions.
#![tactic(auto)]

#[cfg(test)]
mod barrier_rows;
#[cfg(test)]
mod clock_rows;
pub mod examples;
#[cfg(test)]
mod facts;
#[cfg(test)]
mod launch;
#[cfg(test)]
mod sharing_rows;
