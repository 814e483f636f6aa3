//! What the sequencer's thread begins with.

ghost use Rattle.std.specs.Prelude.{◌≡◌};
ghost use Rattle.gr_sequencer_thread.specs.Feeds.{IsFresh};

use crate::inlet::Inlet;
use crate::outlet::Outlet;
use gr_model::config::Config;
use gr_model::shape::Shape;
use std::alloc::{Allocator, Global};
use std::marker::Model;

/// What the sequencer's thread begins with. Contracts see how the run is set up, the items of each work-group, and the seats
/// of all queues.
#[derive(Drop)]
pub struct Begin<A: Allocator = Global> {
    pub(crate) config: Config,
    pub(crate) shape: Shape<A>,
    pub(crate) inlets: Vec<Inlet<A>, A>,
    pub(crate) outlets: Vec<Outlet<A>, A>,
}

impl<A: Allocator> Model for Begin<A> {
    ghost use Rattle.gr_sequencer_thread.specs.Ends as spec;
    ghost use Rattle.gr_sequencer_thread.specs.Feeds.{IsFresh};

    ghost Value = { spec.Begin A };

    ghost view = { λ b. record { config = b.config; sizes = b.shape; takers = b.inlets.items; givers = b.outlets.items } };

    ghost invariant = { λ b. IsFresh {A = A} b.config b.shape b.inlets.items b.outlets.items };
}

impl<A: Allocator> Begin<A> {
    /// A launch of this shape, with the ends of all intake queues and of all workers' queues, in order.
    /// Requires: nothing went through the queues.
    pub fn new(
        config: Config,
        shape: Shape<A>,
        inlets: Vec<Inlet<A>, A>,
        outlets: Vec<Outlet<A>, A>,
    ) -> Begin<A>
        requires { IsFresh config shape inlets.items outlets.items }
        ensures { result ≡ record { config = config; sizes = shape; takers = inlets.items; givers = outlets.items } }
    {
        Begin {
            config,
            shape,
            inlets,
            outlets,
        }
    }
}
