//! A value that is out with the seat that entered.
use crate::stands_for::StandsFor;
use std::marker::Model;

/// The value of a place, while a seat is in it. It has to go back by `leave`: it is not `Drop`.
///
/// Contracts see the value and its place.
pub struct Held<T: StandsFor> {
    pub(crate) value: T,
    pub(crate) place: u32,
}

impl<T: StandsFor> Model for Held<T> {
    ghost use Rattle.cp_gate.specs.Models.{HeldModel};

    ghost Value = { HeldModel T };

    ghost view = { λ h. record { value = h.value; place = h.place } };
}

impl<T: StandsFor> Held<T> {
    ghost use Rattle.std.specs.Prelude.{◌≡◌};
    ghost use Rattle.std.specs.Borrow.{Lends, sem};
    ghost use Rattle.cp_gate.specs.contracts.held.Held.{the_row};

    /// The value.
    pub fn value(&self) -> &T
        ensures { result.now ≡ self.now.value }
    {
        &self.value
    }

    /// The value, to be changed.
    pub fn value_mut(&mut self) -> &mut T
        ensures value { result.now ≡ self.old.value }
        ensures* writes_back { sem 𝓛 (Lends (the_row T.row T.Key.row T.Item.row T.StandsFor) T.row self.entry result (λ w. record self.old { value = w })) }
    {
        &mut self.value
    }
}
