//! Facts that the contracts alone give for some values. A wrong body would give other values.

mod route;
mod sender;
mod worker;
