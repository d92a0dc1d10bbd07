//! A seat at the counter.
ghost use Rattle.leaf_tickets.specs.Models.{Ascends};

use crate::view::View;
use atomic_table::Seat;
use std::marker::Model;

/// One who draws from a counter, or only looks at it. It takes no bytes, and may go to another
/// thread.
///
/// Contracts see its counter, the numbers that it has drawn, in order, and its found number: the
/// counter as its last step found it.
#[derive(Drop)]
pub struct LeafSeat {
    pub(crate) seat: Seat<(), View>,
}

impl Model for LeafSeat {
    ghost use Rattle.std.specs.Prelude.{◌≡◌, []};
    ghost use Rattle.leaf_tickets.specs.Models.{LeafSeatModel, Ascends, leaf_seat_coded};

    ghost Value = { LeafSeatModel };

    ghost coded = { leaf_seat_coded };

    ghost view = { λ s. record { counter = s.seat.table_id; drawn = s.seat.me.0.drawn; found = s.seat.me.0.found } };

    ghost invariant = { λ s. (s.seat.me.1 ≡ []) × (s.seat.me.0.parts ≡ 1) × Ascends s.seat.me.0.drawn s.seat.me.0.found };
}

impl LeafSeat {
    /// A law: the numbers that a seat has drawn ascend strictly, and are below the counter as it
    /// was last found.
    pub fn ascends(&self)
        ensures { Ascends self.now.drawn self.now.found }
    {
        let _ = &self.seat;
    }
}
