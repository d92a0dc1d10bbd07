//! The gate.
ghost use Rattle.std.specs.Prelude.{◌≡◌, ℕ, ◌≤◌, ◌<◌, ◌+◌, ◌^◌, ◌%◌, ◌==◌, [], length, All, map, count_by, vec_capacity, slice_index, Some, None, MatchOption, IfOk, IfErr};
ghost use Rattle.std.specs.List.{range_with_len};
ghost use mathlib.Core.Option.{some};
ghost use lib.ListN.{get_elem?};
ghost use Rattle.cp_gate.specs.Histories.{seen_of, StartsWith, OthersAdd, SeatAdds, SeatsAdd, once_below};
ghost use Rattle.cp_gate.specs.Models.{IsSeatOf, IsNewSeatOf, places, starts, entering, leaving, looking, told_of};
ghost use Rattle.cp_gate.specs.Rule.{first_view};

use crate::apart::{Apart, exchange};
use crate::held::Held;
use crate::refused::Refused;
use crate::rule::{
    About, Arrive, Count, Deal, EachInTurn, Enter, Gather, Leave, Look, Note, ReadNotes,
};
use crate::seat::Seat;
use crate::slots::{SPACE, stow, unload, unstow, words_of};
use crate::stands_for::StandsFor;
use crate::view::View;
use atomic_table::Table;
use std::alloc::Global;
use std::marker::Model;
use std::snapshot::Snapshot;
use std::sync::Wait;

type FirstSeat<T> = atomic_table::Seat<
    Apart<Option<T>>,
    View<<T as StandsFor>::Key, <T as StandsFor>::Item>,
>;

/// Up to 16 places with a value in each, which seats enter in turn. Threads share it by reference.
///
/// Contracts see which gate it is, its key, the number of its seats, and the history of each place when it was made.
pub struct Gate<T: StandsFor> {
    table: Table<Apart<Option<T>>, View<T::Key, T::Item>, About<T>, EachInTurn, Global>,
    key: T::Key,
}

impl<T: StandsFor + Drop> Drop for Gate<T> {
    fn drop(self) {
        let Self { table: _, key: _ } = self;
    }
}

impl<T: StandsFor> Model for Gate<T> {
    ghost use Rattle.std.specs.Prelude.{◌≡◌, ◌<◌, length};
    ghost use Rattle.cp_gate.specs.Models.{GateModel, starts};
    ghost use Rattle.cp_gate.specs.Words.{word_of};

    ghost Value = { GateModel T.Key T.Item };

    ghost view = { λ s. record { table = s.table.shared.table_id; key = s.key; seats = s.table.shared.key.seats; start = starts (T.history s.key) 0 s.table.shared.key.values.value.items } };

    ghost invariant = { λ s. (s.table.shared.key.key.value ≡ s.key) × (s.table.shared.table_id.words ≡ word_of (length s.table.shared.key.values.value.items)) × (s.table.shared.table_id.slots ≡ length s.table.shared.key.values.value.items) × (0 < s.table.shared.table_id.words) };
}

impl<T: StandsFor> Gate<T> {
    /// A gate with these values, value k at place k, and with so many seats, numbered from 0.
    ///
    /// # Errors
    ///
    /// `Refused` is want of memory. It hands the key and the values back.
    #[tactic(none)]
    pub fn new(
        alloc: Global,
        key: T::Key,
        values: Vec<T>,
        seats: u32,
    ) -> Result<(Gate<T>, Vec<Seat<T>>), Refused<T>>
        requires counts { (0 < length values.items) × (length values.items ≤ 16) × (0 < seats) }
        requires values { (p : ℕ) (x : T) → get_elem? values.items p ≡ some x
            → T.fits key p x × (length (T.history key p x) < 2 ^ 62) }
        ensures gate { IfOk result (λ r. (r.0.key ≡ key) × (r.0.seats ≡ seats) × (places r.0 ≡ length values.items)
            × (r.0.start ≡ starts (T.history key) 0 values.items)) }
        ensures seats { IfOk result (λ r. (length r.1.items ≡ seats) × All (IsNewSeatOf r.0) r.1.items
            × (map (λ s. s.number) r.1.items ≡ range_with_len 0 seats)) }
        ensures back { IfErr result (λ r. (r.key ≡ key) × (r.values.items ≡ values.items)) }
    {
        let Ok(words) = words_of(alloc, &key, values.as_slice()) else {
            return Err(Refused { key, values });
        };
        let Ok(all) = Vec::with_capacity(alloc, seats as usize) else {
            return Err(Refused { key, values });
        };
        let Ok(slots) = Vec::with_capacity(alloc, values.len()) else {
            return Err(Refused { key, values });
        };
        let were = Snapshot::of(&values);
        let about = About {
            key: Snapshot::of(&key),
            values: Snapshot::of(&values),
            seats,
        };
        let (slots, room) = stow(values, slots);
        match Table::new(alloc, words.as_slice(), slots, &about) {
            Ok((table, first)) => {
                room.destroy_empty();
                let gate = Gate { table, key };
                let all = gate.deal(all, first, seats);
                Ok((gate, all))
            }
            Err(refused) => {
                let atomic_table::Refused { slots } = refused;
                let values = unstow(slots, room, were);
                Err(Refused { key, values })
            }
        }
    }

    /// The gate's key.
    pub fn key(&self) -> &T::Key
        ensures { result.now ≡ self.now.key }
    {
        &self.key
    }

    // A seat for each number.
    fn deal(&self, all: Vec<Seat<T>>, first: FirstSeat<T>, seats: u32) -> Vec<Seat<T>>
        requires room { (all.items ≡ []) × (seats ≤ vec_capacity all) }
        requires first { (first.table_id ≡ self.now.table) × (length self.now.start ≡ places self.now)
            × (first.me ≡ (first_view self.now.key seats self.now.start, [])) }
        ensures { (length result.items ≡ seats) × All (IsNewSeatOf self.now) result.items
            × (map (λ s. s.number) result.items ≡ range_with_len 0 seats) }
    {
        let mut all = all;
        let mut first = first;
        for number in 0..seats {
            let seat = self.table.shared.split_seat::<Deal>(&mut first);
            all.push_reserved(Seat { number, seat });
        }
        all
    }

    /// Waits until the place is free, and enters it. The seat has then seen the history of the value, which goes on from what it had seen by items of others, and has had one turn more there.
    ///
    /// A seat is in one place at a time.
    pub fn enter<R: Wait>(&self, rt: &R, seat: &mut Seat<T>, place: u32) -> Held<T>
        requires seat { IsSeatOf self.now seat.old }
        requires free { seat.old.entered ≡ None }
        requires place { place < places self.now }
        ensures place { result.place ≡ place }
        ensures fits { T.fits self.now.key place result.value }
        ensures seat { seat.new ≡ entering seat.old place (T.history self.now.key place result.value) }
        ensures seen { OthersAdd (T.names self.now.key) seat.old.number
            (seen_of seat.old.seen place) (T.history self.now.key place result.value) }
        ensures turn { slice_index seat.new.turns place ≡ slice_index seat.old.turns place + 1 }
        ensures here { seen_of seat.new.seen place ≡ T.history self.now.key place result.value }
    {
        for _ in rt.forever() {
            let shared = &self.table.shared;
            let at = SPACE * place as usize;
            let word = shared.peek(at);
            if word % 2 == 0 {
                if let Some(held) = self.try_enter(seat, place, word) {
                    return held;
                }
            } else {
                self.count_in(seat, place);
                shared.park(rt, at, (word & 0xffff_ffff) as u32);
                self.count_out(seat, place);
            }
        }
        unreachable!()
    }

    // Counts the seat among those that wait for the place, so that who leaves it wakes one.
    fn count_in(&self, seat: &mut Seat<T>, place: u32)
        requires seat { IsSeatOf self.now seat.old }
        requires place { place < places self.now }
        ensures { seat.new ≡ seat.old }
    {
        self.table
            .shared
            .fetch_add::<Count>(&mut seat.seat, SPACE * place as usize + 1, 1);
    }

    // Takes the seat out of that count.
    fn count_out(&self, seat: &mut Seat<T>, place: u32)
        requires seat { IsSeatOf self.now seat.old }
        requires place { place < places self.now }
        ensures { seat.new ≡ seat.old }
    {
        self.table
            .shared
            .fetch_sub::<Count>(&mut seat.seat, SPACE * place as usize + 1, 1);
    }

    // Wakes a thread that waits for the place, if one does.
    fn wake(&self, place: u32)
        requires { place < places self.now }
    {
        let shared = &self.table.shared;
        let at = SPACE * place as usize;
        if shared.peek(at + 1) > 0 {
            shared.wake_one(at);
        }
    }

    // Enters, if the word of the place is still the one that was read.
    fn try_enter(&self, seat: &mut Seat<T>, place: u32, word: u64) -> Option<Held<T>>
        requires seat { IsSeatOf self.now seat.old }
        requires free { seat.old.entered ≡ None }
        requires place { place < places self.now }
        requires word { (word % 2 ≡ 0) × (word + 1 < 2 ^ 64) }
        ensures { MatchOption result (seat.new ≡ seat.old) (λ held. (held.place ≡ place)
            × T.fits self.now.key place held.value
            × OthersAdd (T.names self.now.key) seat.old.number
            (seen_of seat.old.seen place) (T.history self.now.key place held.value)
            × (seat.new ≡ entering seat.old place (T.history self.now.key place held.value))
            × (slice_index seat.new.turns place ≡ slice_index seat.old.turns place + 1)
            × (seen_of seat.new.seen place ≡ T.history self.now.key place held.value)) }
    {
        let shared = &self.table.shared;
        let at = SPACE * place as usize;
        if shared.compare_exchange::<Enter>(&mut seat.seat, at, word, word + 1) != word {
            return None;
        }
        let value = exchange(shared, &mut seat.seat, place as usize, None).unwrap();
        Some(Held { value, place })
    }

    /// Leaves the place that the seat entered, with a value that fits there. Its history goes on from what the seat has seen, and each new item that names a number names this seat's. The seat has then seen it.
    pub fn leave(&self, seat: &mut Seat<T>, held: Held<T>)
        requires seat { IsSeatOf self.now seat.old }
        requires entered { seat.old.entered ≡ Some held.place }
        requires fits { T.fits self.now.key held.place held.value }
        requires own { SeatAdds (T.names self.now.key) seat.old.number
            (seen_of seat.old.seen held.place) (T.history self.now.key held.place held.value) }
        requires room { length (T.history self.now.key held.place held.value) < 2 ^ 62 }
        ensures seat { seat.new ≡ leaving seat.old held.place (T.history self.now.key held.place held.value) }
        ensures here { seen_of seat.new.seen held.place ≡ T.history self.now.key held.place held.value }
    {
        let Held { value, place } = held;
        self.put_back(seat, value, place)
    }

    // Puts the value back and frees the place.
    fn put_back(&self, seat: &mut Seat<T>, value: T, place: u32)
        requires seat { IsSeatOf self.now seat.old }
        requires entered { seat.old.entered ≡ Some place }
        requires fits { T.fits self.now.key place value }
        requires own { SeatAdds (T.names self.now.key) seat.old.number
            (seen_of seat.old.seen place) (T.history self.now.key place value) }
        requires room { length (T.history self.now.key place value) < 2 ^ 62 }
        ensures seat { seat.new ≡ leaving seat.old place (T.history self.now.key place value) }
        ensures here { seen_of seat.new.seen place ≡ T.history self.now.key place value }
    {
        let shared = &self.table.shared;
        let at = SPACE * place as usize;
        let word = 2 * value.items();
        let empty = exchange(shared, &mut seat.seat, place as usize, Some(value));
        let None = empty else { unreachable!() };
        shared.store::<Leave>(&mut seat.seat, at, word);
        self.wake(place);
    }

    /// Tells one seat what another has seen: of each place it has then seen the longer of what both had. Of the place in which it is, it learns nothing new.
    pub fn tell(&self, from: &mut Seat<T>, to: &mut Seat<T>)
        requires from { IsSeatOf self.now from.old }
        requires to { IsSeatOf self.now to.old }
        ensures from { from.new ≡ from.old }
        ensures to { to.new ≡ told_of to.old from.old.seen }
        ensures own { (p : ℕ) → p < places self.now
            → OthersAdd (T.names self.now.key) to.old.number (seen_of to.old.seen p) (seen_of to.new.seen p) }
        ensures told { (p : ℕ) → p < places self.now
            → StartsWith (seen_of to.new.seen p) (seen_of from.old.seen p) }
        ensures inside { (p : ℕ) → to.old.entered ≡ Some p → seen_of to.new.seen p ≡ seen_of to.old.seen p }
    {
        let shared = &self.table.shared;
        let note = shared.split_seat::<Note>(&mut from.seat);
        shared.join_seat::<Gather>(&mut to.seat, note);
        shared.load::<ReadNotes>(&mut to.seat, 0);
    }

    /// The number of items in the history of a place, as the call finds it. The seat has then seen that history, which goes on from what it had seen by items of others. At the place in which it is, it learns nothing new.
    pub fn look(&self, seat: &mut Seat<T>, place: u32) -> u64
        requires seat { IsSeatOf self.now seat.old }
        requires place { place < places self.now }
        ensures seat { seat.new ≡ looking seat.old place (seen_of seat.new.seen place) }
        ensures seen { OthersAdd (T.names self.now.key) seat.old.number
            (seen_of seat.old.seen place) (seen_of seat.new.seen place) }
        ensures count { length (seen_of seat.new.seen place) ≡ result }
        ensures inside { seat.old.entered ≡ Some place → seat.new ≡ seat.old }
    {
        self.table
            .shared
            .load::<Look>(&mut seat.seat, SPACE * place as usize)
            / 2
    }

    /// Closes the gate with all its seats, none of which is in a place. The values come in their order, in `room`, which is empty and has room for them.
    ///
    /// What a seat has seen of a place is a beginning of the history of its value, and the items after it don't name the seat. Each item that was added since the gate was made names the number of one of the seats, or none.
    pub fn close(self, seats: Vec<Seat<T>>, room: Vec<T>) -> Vec<T>
        requires room { (room.items ≡ []) × (places self ≤ vec_capacity room) }
        requires seats { (length seats.items ≡ self.seats) × All (λ s. IsSeatOf self s × (s.entered ≡ None)) seats.items }
        ensures len { length result.items ≡ places self }
        ensures fits { (p : ℕ) (x : T) → get_elem? result.items p ≡ some x → T.fits self.key p x }
        ensures seen { (p : ℕ) (x : T) → get_elem? result.items p ≡ some x
            → All (λ s. OthersAdd (T.names self.key) s.number (seen_of s.seen p) (T.history self.key p x)) seats.items }
        ensures added { (p : ℕ) (x : T) → get_elem? result.items p ≡ some x
            → SeatsAdd (T.names self.key) self.seats (seen_of self.start p) (T.history self.key p x) }
        ensures numbers { (k : ℕ) → count_by (λ s. s.number == k) seats.items ≡ once_below k self.seats }
    {
        let Gate { table, key: _ } = self;
        let mut all = table.shared.load_new_seat::<Arrive>(0).1;
        for Seat { number: _, seat } in seats {
            table.shared.join_seat::<Gather>(&mut all, seat);
        }
        unload(table.close_with(all), room)
    }
}
