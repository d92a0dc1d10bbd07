//! Values on their way into the slots of a table, and out of them.
ghost use Rattle.std.specs.Prelude.{◌≡◌, ℕ, ◌≤◌, ◌<◌, ◌*◌, ◌^◌, [], length, map, vec_capacity, Some, IfOk, slice_index};
ghost use Rattle.std.specs.Slots.{slots_items, slots_len, IsFull};
ghost use mathlib.Core.Option.{some};
ghost use lib.ListN.{get_elem?};
ghost use Rattle.cp_gate.specs.Words.{word_of};

use crate::OutOfMemory;
use crate::apart::Apart;
use crate::stands_for::StandsFor;
use atomic_table::Closed;
use std::alloc::Global;
use std::snapshot::Snapshot;

/// A place's word is one of so many, and the others are not used.
pub(crate) const SPACE: usize = 16;

// The first words: twice the number of items of each value, and zeros between them.
pub(crate) fn words_of<T: StandsFor>(
    alloc: Global,
    _key: &T::Key,
    values: &[T],
) -> Result<Vec<u64>, OutOfMemory>
    requires { (p : ℕ) (x : T) → get_elem? values.now p ≡ some x → T.fits _key.now p x × (length (T.history _key.now p x) < 2 ^ 62) }
    ensures { IfOk result (λ w. (length w.items ≡ word_of (length values.now)) × ((p : ℕ) (x : T) → get_elem? values.now p ≡ some x → slice_index w.items (word_of p) ≡ 2 * length (T.history _key.now p x))) }
{
    let mut words = Vec::new(alloc);
    for value in values {
        words.push(2 * value.items())?;
        words.extend_from_slice(&[0; SPACE - 1])?;
    }
    Ok(words)
}

// The values, each in a slot. The list is empty afterwards, and keeps its room.
pub(crate) fn stow<T>(
    values: Vec<T>,
    slots: Vec<Apart<Option<T>>>,
) -> (Vec<Apart<Option<T>>>, Vec<T>)
    requires room { (slots.items ≡ []) × (length values.items ≤ vec_capacity slots) }
    ensures slots { result.0.items ≡ map (λ x. Some x) values.items }
    ensures room { (result.1.items ≡ []) × (vec_capacity result.1 ≡ vec_capacity values) }
{
    let mut values = values;
    let mut slots = slots;
    values.as_mut_slice().reverse();
    while let Some(value) = values.pop() {
        slots.push_reserved(Apart::of(Some(value)));
    }
    (slots, values)
}

// The values out of their slots again.
pub(crate) fn unstow<T>(
    slots: Vec<Apart<Option<T>>>,
    room: Vec<T>,
    _values: Snapshot<Vec<T>>,
) -> Vec<T>
    requires slots { slots.items ≡ map (λ x. Some x) _values.value.items }
    requires room { (room.items ≡ []) × (length _values.value.items ≤ vec_capacity room) }
    ensures { result.items ≡ _values.value.items }
{
    let mut slots = slots;
    let mut room = room;
    while let Some(slot) = slots.pop() {
        room.push_reserved(slot.into_held().unwrap());
    }
    slots.destroy_empty();
    room.as_mut_slice().reverse();
    room
}

// The values of a closed table, in the room.
pub(crate) fn unload<T>(closed: Closed<Apart<Option<T>>, Global>, room: Vec<T>) -> Vec<T>
    requires full { IsFull closed.slots }
    requires values { (p : ℕ) → p < slots_len closed.slots → (x : T) × (get_elem? (slots_items closed.slots) p ≡ some (Some x)) }
    requires room { (room.items ≡ []) × (slots_len closed.slots ≤ vec_capacity room) }
    ensures len { length result.items ≡ slots_len closed.slots }
    ensures values { (p : ℕ) (x : T) → get_elem? (slots_items closed.slots) p ≡ some (Some x) → get_elem? result.items p ≡ some x }
{
    let mut closed = closed;
    let mut room = room;
    for i in 0..closed.slot_count() {
        let value = closed.take(i).into_held().unwrap();
        room.push_reserved(value);
    }
    closed.free();
    room
}
