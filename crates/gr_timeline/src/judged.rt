//! A launch whose grounded events are known.
//!
//! Invariant: all records were taken, every list is complete, and just the grounded events were handled: of each item the first ones.

ghost use Rattle.std.specs.Prelude.{◌≡◌, ◌↔◌, ◌<◌, IfOk, IsTrue, List};
ghost use Rattle.gr_model.specs.Prelude.{IsWholeOrder, IsGrounded};
ghost use Rattle.gr_model.specs.Streams as model;
ghost use Rattle.gr_timeline.specs.Waiting.{ForgetsGrounded};

use gr_lanes::lanes::Lanes;
use gr_model::event::{Event, EventId, ItemId};
use gr_model::memory::Memory;
use gr_model::traces::Traces;
use gr_sequencer::sequencer::Sequencer;
use gr_taking::keeper::NoKeeper;
use gr_taking::traces::follow;
use std::alloc::{Allocator, Global};
use std::marker::Model;

/// A launch whose grounded events are known. Contracts see its streams.
#[derive(Drop)]
#[derive_where(Debug)]
pub(crate) struct Judged<A: Allocator = Global> {
    sequencer: Sequencer<A>,
}

impl<A: Allocator> Model for Judged<A> {
    ghost use Rattle.gr_model.specs.Prelude.{AreComplete, Streams};
    ghost use Rattle.gr_order.specs.Sequences.{IsDone};

    ghost Value = { Streams };

    ghost view = { λ j. j.sequencer.taken };

    ghost invariant = { λ j. IsDone j.sequencer × AreComplete j.sequencer.taken };
}

impl<A: Allocator + Copy> Judged<A> {
    /// Takes and handles the records of a launch.
    pub(crate) fn of(alloc: A, traces: &Traces<A>) -> Result<Judged<A>, Memory>
        ensures { IfOk result (λ j. j ≡ traces.now) }
    {
        let sequencer = follow(alloc, traces, &NoKeeper, &mut ())?;
        Ok(Judged { sequencer })
    }
}

impl<A: Allocator> Judged<A> {
    /// The records of the launch. What is forgotten of them is grounded.
    pub(crate) fn lanes(&self) -> &Lanes<A>
        ensures taken { result.now.streams ≡ self.now }
        ensures grounded { ForgetsGrounded result.now }
        ensures complete { model.AreComplete self.now }
        ensures prefixes { model.ArePrefixes self.now }
        ensures whole { (order : List EventId) × IsWholeOrder self.now order }
    {
        self.sequencer.order().lanes()
    }

    /// The first event of an item that is not grounded, whether it is there or not.
    pub(crate) fn first_held(&self, item: ItemId) -> EventId
        ensures item { result.at ≡ item }
        ensures grounded { (e : EventId) → e.at ≡ item → IsGrounded self.now e ↔ (e.index < result.index) }
    {
        EventId {
            at: item,
            index: self.sequencer.order().frontier().get(item),
        }
    }

    /// Whether an event is grounded.
    pub(crate) fn is_grounded(&self, event: EventId) -> bool
        ensures { IsTrue result ↔ IsGrounded self.now event }
    {
        event.index < self.first_held(event.at).index
    }

    /// The record of an event that is not grounded, or `None` if there is none of this index.
    pub(crate) fn record_of(&self, event: EventId) -> Option<Event>
        requires { ¬ IsGrounded self.now event }
        ensures { result ≡ model.event_at self.now event }
    {
        let order = self.sequencer.order();
        let handled = order.frontier().get(event.at);
        order.windows().waiting(event.at, event.index - handled)
    }
}
