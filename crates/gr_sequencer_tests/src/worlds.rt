//! Worlds of runs, by scripts of steps with the answer to each, also with each growth refused in turn, and the worked rows of launches by
//! schedules of steps.

mod calls;
mod facts;
mod schedules;
mod script;
mod scripts;
mod steps;
mod told;
