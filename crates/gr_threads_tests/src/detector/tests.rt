//! Runs in threads.

mod growths;
mod two_senders;
mod watches;
