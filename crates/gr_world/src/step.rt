//! The steps of a world, and the causes for which a step is refused.

ghost use Rattle.std.specs.Prelude.{◌≡◌};
ghost use Rattle.gr_world.specs.Steps.{Becomes};
ghost use Rattle.gr_world.specs.declared.step.StepError.TheVariants.{Memory as OutOfMemory};

use gr_model::event::{Event, ItemId};
use gr_model::memory::Memory;
use gr_order::go_error::GoError;
use thiserror::Error;

/// One atomic action of a sender, of the sequencer or of a worker.
#[derive(Clone, Copy, Debug, PartialEq, Eq)]
pub enum Step {
    /// A group's sender sends an event that is not an end.
    Send(u16, Event),
    /// A group's sender sends the end of its stream, and says whether the stream was cut.
    Close(u16, bool),
    /// The sequencer takes the record at the front of this intake queue.
    Take(u16),
    /// The sequencer handles an item's next event; its access, if it has one, is then on its way to a worker.
    Handle(ItemId),
    /// The sequencer handles the barriers of a group's next convergent instance.
    Meet(u16),
    /// The access on its way goes to the queue of its word's worker.
    Pass,
    /// This worker receives the access at the front of its queue.
    WorkTake(u16),
}

/// Why a step is refused: the first of these causes that holds. The world is then unchanged.
#[derive(Clone, Copy, Debug, PartialEq, Eq, Error)]
pub enum StepError {
    /// There is no such group, item, queue or worker. Or the event that is sent is an end, is not allowed in the group, or
    /// leaves no room for the end of the stream.
    #[error("bad step")]
    BadStep,
    /// The group's stream has ended.
    #[error("the stream has its end")]
    NotOpen,
    /// The queue has no room.
    #[error("the queue is full")]
    Full,
    /// The queue is empty, or no access is on its way.
    #[error("nothing is there")]
    Empty,
    /// An access is on its way, so no event can be handled.
    #[error("an access is on its way")]
    Busy,
    /// The item's next event waits for something, or no barrier instance of the group can meet.
    #[error("not ready")]
    NotReady,
    /// An allocation was refused.
    #[error("out of memory")]
    Memory,
}

impl From<Memory> for StepError {
    ghost from_gives = { λ _ e. e ≡ OutOfMemory };

    fn from(_error: Memory) -> StepError {
        StepError::Memory
    }
}

impl From<GoError> for StepError {
    ghost from_gives = { λ e f. Becomes e f };

    fn from(error: GoError) -> StepError {
        match error {
            GoError::NotReady => StepError::NotReady,
            GoError::Memory => StepError::Memory,
        }
    }
}
