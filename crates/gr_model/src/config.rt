//! How a run is set up: how many workers and queues it has, and which of them a group's events and a word's accesses go to.

ghost use Rattle.std.specs.Prelude.{◌≡◌, ◌≢◌, ◌↔◌, ◌%◌, ◌<◌, IsOk, IfOk, IfErr};
ghost use Rattle.gr_model.specs.Configs.{IsConfig, IsConfigFault, worker_number};

use crate::event::Word;
use crate::limits::{MOST_PLACES, MOST_QUEUES, MOST_WORKERS};
use std::marker::Model;
use thiserror::Error;

/// Why numbers are no configuration: the first cause that is there.
#[derive(Clone, Copy, Debug, PartialEq, Eq, Error)]
pub enum ConfigError {
    /// There are no workers, or more than `MOST_WORKERS`.
    #[error("bad workers")]
    BadWorkers,
    /// There are no queues, or more than `MOST_QUEUES`.
    #[error("bad queues")]
    BadQueues,
    /// A queue has room for no value, or for more than `MOST_PLACES`.
    #[error("bad capacity")]
    BadCapacity,
}

/// How many workers and intake queues a run has, and for how many values each queue has room: 1 to `MOST_WORKERS`, 1 to
/// `MOST_QUEUES` and 1 to `MOST_PLACES`. Contracts see these numbers.
#[derive(Clone, Copy, Debug, PartialEq, Eq)]
pub struct Config {
    workers: u16,
    queues: u16,
    capacity: u32,
}

impl Model for Config {
    ghost use Rattle.gr_model.specs.Configs.{Settings, IsConfig};

    ghost Value = { Settings };

    ghost view = { λ c. record { workers = c.workers; queues = c.queues; capacity = c.capacity } };

    ghost inverse = { λ s. record { workers = s.workers; queues = s.queues; capacity = s.capacity } };

    ghost invariant = { λ c. IsConfig (record { workers = c.workers; queues = c.queues; capacity = c.capacity }) };
}

impl Config {
    /// The configuration of `workers` workers and `queues` intake queues, with room for `capacity` values in each queue.
    ///
    /// # Errors
    /// The first of these that is there: `BadWorkers` if `workers` is not 1 to `MOST_WORKERS`; `BadQueues` if `queues`
    /// is not 1 to `MOST_QUEUES`; `BadCapacity` if `capacity` is not 1 to `MOST_PLACES`.
    pub fn new(workers: u16, queues: u16, capacity: u32) -> Result<Config, ConfigError>
        ensures accepted { IsOk result ↔ IsConfig (record { workers = workers; queues = queues; capacity = capacity }) }
        ensures numbers { IfOk result (λ c. c ≡ record { workers = workers; queues = queues; capacity = capacity }) }
        ensures refused { IfErr result (λ e. IsConfigFault (record { workers = workers; queues = queues; capacity = capacity }) e) }
    {
        if workers == 0 || workers > MOST_WORKERS {
            return Err(ConfigError::BadWorkers);
        }
        if queues == 0 || queues > MOST_QUEUES {
            return Err(ConfigError::BadQueues);
        }
        if capacity == 0 || capacity > MOST_PLACES {
            return Err(ConfigError::BadCapacity);
        }
        Ok(Config {
            workers,
            queues,
            capacity,
        })
    }

    /// How many workers there are: 1 to `MOST_WORKERS`.
    pub fn workers(&self) -> u16
        ensures number { result ≡ self.now.workers }
        ensures config { IsConfig self.now }
    {
        self.workers
    }

    /// How many intake queues there are: 1 to `MOST_QUEUES`.
    pub fn queues(&self) -> u16
        ensures number { result ≡ self.now.queues }
        ensures config { IsConfig self.now }
    {
        self.queues
    }

    /// For how many values each queue has room: 1 to `MOST_PLACES`.
    pub fn capacity(&self) -> u32
        ensures number { result ≡ self.now.capacity }
        ensures config { IsConfig self.now }
    {
        self.capacity
    }
}

/// The number of the intake queue, of `queues`, that a group's events go to: `group` mod `queues`.
/// Requires: `queues` is not 0.
pub fn queue_of(group: u16, queues: u16) -> u16
    requires { queues ≢ 0 }
    ensures { result ≡ group % queues }
{
    group % queues
}

/// The number of the worker, of `workers`, that the accesses to a word go to: for global word w it is w mod `workers`,
/// for local word w of group g it is (g + w) mod `workers`. So all accesses to a word go to one worker.
/// Requires: `workers` is not 0.
pub fn worker_of(word: &Word, workers: u16) -> u16
    requires { workers ≢ 0 }
    ensures { result ≡ worker_number word.now workers }
{
    let number = match word {
        Word::Global(number) => u64::from(*number),
        Word::Local(group, number) => u64::from(*group) + u64::from(*number),
    };
    (number % u64::from(workers)) as u16
}
