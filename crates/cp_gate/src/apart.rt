//! Slots that stand apart in memory.
ghost use Rattle.std.specs.Prelude.{◌≡◌, ℕ, ◌∷◌};
ghost use Rattle.atomic_table.specs.Table.{rest};

use atomic_table::{Seat, Shared, TableRule};
use std::marker::Model;
use std::mem;

/// What a slot holds, and as much room behind it as two lines of a processor's memory, which is never written again. So threads that use the slots of two places share no line. Contracts see what it holds alone.
#[derive(Drop)]
pub struct Apart<S> {
    held: S,
    _room: [u64; 16],
}

impl<S> Model for Apart<S> {
    ghost Value = { S };

    ghost view = { λ a. a.held };
}

impl<S> Apart<S> {
    pub fn of(held: S) -> Apart<S>
        ensures { result ≡ held }
    {
        Apart {
            held,
            _room: [0; 16],
        }
    }

    pub fn into_held(self) -> S
        ensures { result ≡ self }
    {
        let Apart { held, _room: _ } = self;
        held
    }

    // Puts another value in, without a write to the room.
    fn replace(&mut self, new: S) -> S
        ensures { (result ≡ self.old) × (self.new ≡ new) }
    {
        mem::replace(&mut self.held, new)
    }
}

/// Puts another value into the slot that the seat took last.
pub fn exchange<S, V, K, P: TableRule<Apart<S>, V, K>>(
    shared: &Shared<Apart<S>, V, K, P>,
    seat: &mut Seat<Apart<S>, V>,
    slot: usize,
    new: S,
) -> S
    requires { (seat.old.table_id ≡ shared.now.table_id) × ((old : S) × (seat.old.me.1 ≡ (slot, old) ∷ rest seat.old.me.1)) }
    ensures { (seat.new.table_id ≡ seat.old.table_id) × (seat.new.id ≡ seat.old.id) × (seat.old.me.1 ≡ (slot, result) ∷ rest seat.old.me.1) × (seat.new.me ≡ (seat.old.me.0, (slot, new) ∷ rest seat.old.me.1)) }
{
    seat.slot_mut(shared, slot).replace(new)
}
