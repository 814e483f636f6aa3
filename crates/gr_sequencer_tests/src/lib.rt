//! Tests alone: worked rows of launches by the sequencer and by worlds, also with each growth refused in turn, and single steps of
//! both.
#![tactic(auto)]

#[cfg(test)]
mod calls;
#[cfg(test)]
mod facts;
#[cfg(test)]
mod forgetting;
#[cfg(test)]
mod rows;
#[cfg(test)]
mod sequencers;
#[cfg(test)]
mod told;
#[cfg(test)]
mod trials;
#[cfg(test)]
mod turns;
#[cfg(test)]
mod worlds;
