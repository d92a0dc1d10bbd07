//! Turns at a gate.
ghost use Rattle.std.specs.Prelude.{◌≡◌, ◌<◌, ◌≤◌, All, None, IfOk, length};
ghost use Rattle.cp_gate.specs.Models.{IsSeatOf, places};

use crate::gate::counter::Counter;
use cp_gate::{Gate, Seat};
use std::alloc::{AllocError, Global};
use std::sync::Wait;
use std::sync::atomic::{AtomicU64, Ordering};
use std::thread;
use std::thread::Threads;

// So many turns at a place. What the place has counted by then is added to `counted`.
fn take_turns<R: Wait>(
    rt: &R,
    gate: &Gate<Counter>,
    seat: &mut Seat<Counter>,
    place: u32,
    turns: u64,
    counted: &AtomicU64,
)
    requires seat { IsSeatOf gate.now seat.old }
    requires free { seat.old.entered ≡ None }
    requires place { place < places gate.now }
{
    let mut last = 0;
    'turns: for _ in 0..turns {
        let mut held = gate.enter(rt, seat, place);
        let value = held.value_mut();
        value.add();
        last = value.turns();
        gate.leave(seat, held);
    }
    counted.fetch_add(last, Ordering::SeqCst);
}

// So many turns for each seat, in a thread of its own.
fn side_by_side<R: Threads + Wait + Sync>(
    rt: &R,
    gate: &Gate<Counter>,
    seats: &mut [Seat<Counter>],
    turns: u64,
    counted: &AtomicU64,
)
    requires seats { All (λ s. IsSeatOf gate.now s × (s.entered ≡ None)) seats.old }
    requires some { 0 < length seats.old }
    requires places { length seats.old ≤ places gate.now }
    requires few { length seats.old ≤ 16 }
{
    let threads = seats.len();
    thread::for_each_mut(
        rt,
        seats,
        threads,
        &|place, seat|
            requires { (place < 16) × (place < places gate.now) × IsSeatOf gate.now seat.now × (seat.now.entered ≡ None) }
        { take_turns(rt, gate, seat, place as u32, turns, counted) },
    );
}

// So many counters.
fn counters(alloc: Global, count: u32) -> Result<Vec<Counter>, AllocError>
    ensures { IfOk result (λ all. length all.items ≡ count) }
{
    let mut all = Vec::with_capacity(alloc, count as usize)?;
    for _ in 0..count {
        all.push(Counter::new())?;
    }
    Ok(all)
}

/// How many turns the places of a gate have counted once each of so many threads, at least one and at
/// most 16, has taken so many at a place of its own. Nothing where memory is wanted.
pub fn turns_at_gate<R: Threads + Wait + Sync>(
    rt: &R,
    alloc: Global,
    threads: u32,
    turns: u64,
) -> Option<u64> {
    let threads = threads.clamp(1, 16);
    let Ok(counters) = counters(alloc, threads) else {
        return None;
    };
    let (gate, mut seats) = Gate::new(alloc, (), counters, threads).ok()?;
    let counted = AtomicU64::new(0);
    side_by_side(rt, &gate, seats.as_mut_slice(), turns, &counted);
    Some(counted.load(Ordering::SeqCst))
}
