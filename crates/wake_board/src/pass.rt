//! The pass by which a caller makes its calls.

use crate::body::Body;
use crate::views::View;
use atomic_table::Seat;
use sched_base::CallerId;
use std::marker::Model;

/// The right to make the calls of one caller on one board, one after another, from whatever thread. Contracts
/// see its board, the caller's number, the state with which the board was opened, and its own entries, by which it has
/// tasks in its hands and runs them; also its misses and the bodies that are out with it.
#[derive(Drop)]
pub struct Pass {
    pub(crate) seat: Seat<Body, View>,
    pub(crate) who: CallerId,
}

impl Model for Pass {
    ghost use Rattle.wake_board.specs.Seen.{Held};
    ghost use Rattle.wake_board.specs.Own.{IsPass, held_by};

    ghost Value = { Held };

    ghost view = { λ p. held_by p.seat.table_id p.who.0 p.seat.me.0 };

    ghost invariant = { λ p. IsPass p.who.0 p.seat.me };
}

impl Pass {
    ghost use Rattle.std.specs.Prelude.{◌≡◌};

    /// The caller's number.
    pub fn who(&self) -> CallerId
        ensures { result.0 ≡ self.now.who }
    {
        self.who
    }
}
