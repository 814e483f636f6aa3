//! A trial of a new sequencer, repeated with each growth refused in turn.

use crate::calls::new;
use gr_sequencer::sequencer::Sequencer;
use refusing::growths::refuse_each;
use std::alloc::{Allocator, Global};

/// What a new sequencer does, and the answer that it must give.
pub(crate) trait Trial {
    /// Whether it gives this answer.
    fn holds<A: Allocator + Copy>(&self, sequencer: &mut Sequencer<A>) -> bool;
}

/// Whether a trial holds with a new sequencer of these sizes.
fn holds_anew<A: Allocator + Copy, T: Trial>(alloc: A, sizes: &[u16], trial: &T) -> bool {
    new(alloc, sizes).is_some_and(|mut sequencer| trial.holds(&mut sequencer))
}

/// Whether a trial holds with a new sequencer of these sizes whichever growth is refused.
pub(crate) fn holds_always<T: Trial>(alloc: Global, sizes: &[u16], trial: &T) -> bool {
    refuse_each(alloc, 5, |heap| Ok(holds_anew(heap, sizes, trial))).is_ok()
}
