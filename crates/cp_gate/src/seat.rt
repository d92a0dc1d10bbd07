//! A seat at the gate.
use crate::apart::Apart;
use crate::stands_for::StandsFor;
use crate::view::View;
use std::marker::Model;

/// The right to enter the places of one gate, one at a time. It may go to another thread.
///
/// Contracts see its number, what it has seen of the history of each place, how many turns it has had at each, and the place in which it is.
#[derive(Drop)]
pub struct Seat<T: StandsFor> {
    pub(crate) number: u32,
    pub(crate) seat: atomic_table::Seat<Apart<Option<T>>, View<T::Key, T::Item>>,
}

impl<T: StandsFor> Model for Seat<T> {
    ghost use Rattle.cp_gate.specs.Models.{SeatModel};
    ghost use Rattle.cp_gate.specs.Rule.{first_seen, IsSeated};

    ghost Value = { SeatModel T.Key T.Item };

    ghost view = { λ s. record { table = s.seat.table_id; key = s.seat.me.0.key; number = s.number; seen = first_seen s.seat.me.0.identities; turns = s.seat.me.0.turns; entered = s.seat.me.0.entered } };

    ghost invariant = { λ s. (key : T.Key) × IsSeated key s.number s.seat.table_id.slots s.seat.me };
}

impl<T: StandsFor> Seat<T> {
    ghost use Rattle.std.specs.Prelude.{◌≡◌};

    /// The seat's number: the seats of a gate are numbered from 0.
    pub fn number(&self) -> u32
        ensures { result ≡ self.now.number }
    {
        self.number
    }
}
