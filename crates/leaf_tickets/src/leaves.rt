//! The counter.
ghost use Rattle.std.specs.Prelude.{◌≡◌, ℕ, ◌≤◌, ◌<◌, ◌++◌, ◌∷◌, [], ◌+◌, ◌^◌, length, sum_by, All, IfOk, IfErr, MatchResult, MatchBool};
ghost use Rattle.leaf_tickets.specs.Models.{IsSeatOf, AreDealt, IsNextFor, IsOver, HaveDrawnOnce, having_drawn, times};

use crate::OutOfMemory;
use crate::leaf_seat::LeafSeat;
use crate::leaves_over::LeavesOver;
use crate::rule::{About, Arrive, Deal, Draw, EachOnce, Gather, Look};
use crate::view::View;
use atomic_table::Table;
use std::alloc::Global;
use std::marker::Model;
use std::sync::Wait;

/// A counter from which seats draw. Threads share it by reference.
///
/// Contracts see which counter it is, the number at which it began, and how many seats it has.
#[derive(Drop)]
pub struct Leaves {
    table: Table<(), View, About, EachOnce, Global>,
}

impl Model for Leaves {
    ghost use Rattle.std.specs.Prelude.{◌≡◌};
    ghost use Rattle.leaf_tickets.specs.Models.{LeavesModel, leaves_coded};

    ghost Value = { LeavesModel };

    ghost coded = { leaves_coded };

    ghost view = { λ s. record { counter = s.table.shared.table_id; start = s.table.shared.key.start; seats = s.table.shared.key.seats } };

    ghost invariant = { λ s. (s.table.shared.table_id.words ≡ 1) × (s.table.shared.table_id.slots ≡ 0) };
}

impl Leaves {
    /// A counter at 0, with so many seats.
    pub fn new(alloc: Global, seats: u32) -> Result<(Leaves, Vec<LeafSeat>), OutOfMemory>
        requires { 0 < seats }
        ensures leaves { IfOk result (λ r. (r.0.start ≡ 0) × (r.0.seats ≡ seats)) }
        ensures seats { IfOk result (λ r. (length r.1.items ≡ seats) × AreDealt r.0 0 r.1.items) }
    {
        Leaves::resume(alloc, 0, seats)
    }

    /// A counter at `start`, with so many seats. The numbers below `start` are never drawn from it.
    pub fn resume(
        alloc: Global,
        start: u64,
        seats: u32,
    ) -> Result<(Leaves, Vec<LeafSeat>), OutOfMemory>
        requires { 0 < seats }
        ensures leaves { IfOk result (λ r. (r.0.start ≡ start) × (r.0.seats ≡ seats)) }
        ensures seats { IfOk result
            (λ r. (length r.1.items ≡ seats) × AreDealt r.0 start r.1.items) }
    {
        let mut all = Vec::with_capacity(alloc, seats as usize)?;
        let about = About {
            start,
            seats: seats as u64,
        };
        let (table, mut first) = Table::of_words(alloc, &[start], &about)?;
        for _ in 0..seats {
            all.push_reserved(LeafSeat {
                seat: table.shared.split_seat::<Deal>(&mut first),
            });
        }
        Ok((Leaves { table }, all))
    }

    /// Draws a number below `limit` that no seat has drawn: the counter, which goes up by one.
    ///
    /// # Errors
    ///
    /// `LeavesOver` where the counter was found at the limit or above it. The seat's found number
    /// is then `drawn`.
    pub fn draw<R: Wait>(&self, rt: &R, seat: &mut LeafSeat, limit: u64) -> Result<u64, LeavesOver>
        requires { IsSeatOf self.now seat.old }
        ensures number { IfOk result (λ n. IsNextFor seat.old limit n) }
        ensures over { IfErr result (λ over. IsOver seat.old limit over) }
        ensures seat { MatchResult result
            (λ n. seat.new ≡ having_drawn seat.old n)
            (λ over. seat.new ≡ record seat.old { found = over.drawn }) }
    {
        for _ in rt.forever() {
            let number = self.look(seat);
            if number >= limit {
                return Err(LeavesOver {
                    drawn: number,
                    limit,
                });
            }
            if self.take(seat, number) {
                return Ok(number);
            }
        }
        unreachable!()
    }

    // Draws the number if it is the next one.
    fn take(&self, seat: &mut LeafSeat, number: u64) -> bool
        requires seat { IsSeatOf self.now seat.old }
        requires room { number + 1 < 2 ^ 64 }
        ensures found { seat.old.found ≤ seat.new.found }
        ensures drawn { MatchBool result
            ((seat.new ≡ having_drawn seat.old number) × (times number seat.old.drawn ≡ 0))
            (seat.new ≡ record seat.old { found = seat.new.found }) }
    {
        let shared = &self.table.shared;
        shared.compare_exchange::<Draw>(&mut seat.seat, 0, number, number + 1) == number
    }

    /// The counter, which the seat has then found.
    pub fn look(&self, seat: &mut LeafSeat) -> u64
        requires { IsSeatOf self.now seat.old }
        ensures counter { seat.old.found ≤ result }
        ensures seat { seat.new ≡ record seat.old { found = result } }
    {
        self.table.shared.load::<Look>(&mut seat.seat, 0)
    }

    /// Closes the counter with all its seats, and answers the number at which it stands. Together
    /// the seats have drawn the numbers from the start on that are below it, each once, and none
    /// found a higher counter.
    pub fn close(self, seats: Vec<LeafSeat>) -> u64
        requires seats { (length seats.items ≡ self.seats) × All (IsSeatOf self) seats.items }
        ensures once { HaveDrawnOnce seats.items self.start result }
        ensures count { self.start + sum_by (λ s. length s.drawn) seats.items ≡ result }
        ensures found { All (λ s. s.found ≤ result) seats.items }
    {
        let Leaves { table } = self;
        let mut all = table.shared.load_new_seat::<Arrive>(0).1;
        for LeafSeat { seat } in seats {
            table.shared.join_seat::<Gather>(&mut all, seat);
        }
        let closed = table.close_with(all);
        let count = closed.word(0);
        closed.free();
        count
    }
}
