//! The rule of the table, and what each step on it tells.
//!
//! Word 16 k is twice the number of items in the history of place k, and 1 more while a seat is in it, and slot k has the value. Word 16 k + 1 counts the threads that wait for place k, which the rule leaves open: who leaves wakes one if there is any. The other words are not used: they keep those of two places apart in memory.
use crate::apart::Apart;
use crate::stands_for::StandsFor;
use crate::view::View;
use atomic_table::{Join, Play, Split, TableRule};
use std::snapshot::Snapshot;

/// What the table is told when it is made: the key, the values and the number of seats.
#[derive(Drop)]
pub struct About<T: StandsFor> {
    pub key: Snapshot<T::Key>,
    pub values: Snapshot<Vec<T>>,
    pub seats: u32,
}

/// One seat at a time is in a place, and has seen its whole history.
pub struct EachInTurn;

impl<T: StandsFor> TableRule<Apart<Option<T>>, View<T::Key, T::Item>, About<T>> for EachInTurn {
    ghost use Rattle.std.specs.Prelude.{length};
    ghost use Rattle.cp_gate.specs.Models.{starts};
    ghost use Rattle.cp_gate.specs.Rule.{InTurn, first_view};
    ghost use Rattle.cp_gate.specs.Words.{Spaced};

    ghost holds = { λ about. Spaced (length about.values.value.items) (InTurn (T.fits about.key.value) (T.history about.key.value) (T.names about.key.value) about.key.value (length about.values.value.items) about.seats (starts (T.history about.key.value) 0 about.values.value.items)) };

    ghost first = { λ about. first_view about.key.value about.seats (starts (T.history about.key.value) 0 about.values.value.items) };
}

/// A seat sees the history of a place.
pub struct Look;

impl<T: StandsFor> Play<Apart<Option<T>>, View<T::Key, T::Item>> for Look {
    ghost use Rattle.cp_gate.specs.Rule.{Looked};
    ghost use Rattle.cp_gate.specs.Words.{AtPlace};

    ghost then = { AtPlace (Looked T.names) };
}

/// A seat enters a place and has its value.
pub struct Enter;

impl<T: StandsFor> Play<Apart<Option<T>>, View<T::Key, T::Item>> for Enter {
    ghost use Rattle.cp_gate.specs.Rule.{Entered};
    ghost use Rattle.cp_gate.specs.Words.{AtPlace};

    ghost then = { AtPlace (Entered T.fits T.history T.names) };
}

/// A seat leaves its place, with the value put back.
pub struct Leave;

impl<T: StandsFor> Play<Apart<Option<T>>, View<T::Key, T::Item>> for Leave {
    ghost use Rattle.cp_gate.specs.Rule.{Left};
    ghost use Rattle.cp_gate.specs.Words.{AtPlace};

    ghost then = { AtPlace (Left T.history) };
}

/// A seat counts itself among those that wait for a place, or takes itself out again. It knows no more than before.
pub struct Count;

impl<T: StandsFor> Play<Apart<Option<T>>, View<T::Key, T::Item>> for Count {
    ghost use Rattle.std.specs.Prelude.{◌≡◌};

    ghost then = { λ _ before _ after. after ≡ before };
}

/// A seat reads its note.
pub struct ReadNotes;

impl<T: StandsFor> Play<Apart<Option<T>>, View<T::Key, T::Item>> for ReadNotes {
    ghost use Rattle.cp_gate.specs.Rule.{HasRead};

    ghost then = { HasRead T.names };
}

/// A newcomer has seen nothing, and has no number.
pub struct Arrive;

impl<T: StandsFor> Play<Apart<Option<T>>, View<T::Key, T::Item>> for Arrive {
    ghost use Rattle.cp_gate.specs.Rule.{Arrived};

    ghost then = { Arrived };
}

/// The first of the numbers goes to a new seat.
pub struct Deal;

impl<K, I> Split<View<K, I>> for Deal {
    ghost use Rattle.cp_gate.specs.Rule.{without_first, first_alone};

    ghost left = { without_first };

    ghost right = { first_alone };
}

/// A note of what a seat has seen.
pub struct Note;

impl<K, I> Split<View<K, I>> for Note {
    ghost use Rattle.cp_gate.specs.Rule.{noted};

    ghost left = { λ v. v };

    ghost right = { noted };
}

/// One view takes in another.
pub struct Gather;

impl<K, I> Join<View<K, I>> for Gather {
    ghost use Rattle.cp_gate.specs.Rule.{both, newcomer};

    ghost both = { both };

    ghost spent = { newcomer };
}
