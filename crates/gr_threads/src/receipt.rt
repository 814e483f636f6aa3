//! What is left of a sender that was closed.

ghost use Rattle.std.specs.Prelude.{◌≡◌, IsTrue};
ghost use Rattle.gr_model.specs.Prelude.{is_complete};

use gr_route::intake::IntakeSeat;
use std::alloc::{Allocator, Global};
use std::marker::Model;

/// What is left of a sender that was closed: its seat. Contracts see the seat. Its list is all that was sent, with the end
/// last.
#[derive(Drop)]
pub struct Receipt<A: Allocator = Global> {
    seat: IntakeSeat<A>,
}

impl<A: Allocator> Model for Receipt<A> {
    ghost use Rattle.std.specs.Prelude.{IsTrue};
    ghost use Rattle.gr_model.specs.Prelude.{is_complete};
    ghost use Rattle.gr_route.specs.IntakeSeats.{Seat};

    ghost Value = { Seat };

    ghost view = { λ r. r.seat };

    ghost invariant = { λ r. IsTrue (is_complete r.seat.pushed) };
}

impl<A: Allocator> Receipt<A> {
    /// The receipt of a seat that has pushed the end.
    pub(crate) fn of(seat: IntakeSeat<A>) -> Receipt<A>
        requires { IsTrue (is_complete seat.pushed) }
        ensures { result ≡ seat }
    {
        Receipt { seat }
    }

    /// The number of the work-group whose stream was sent.
    pub fn group(&self) -> u16
        ensures { result ≡ self.now.group }
    {
        self.seat.group()
    }

    /// The seat, which can be joined back into the taker's.
    pub fn into_seat(self) -> IntakeSeat<A>
        ensures seat { result ≡ self }
        ensures ended { IsTrue (is_complete result.pushed) }
    {
        self.seat
    }
}
