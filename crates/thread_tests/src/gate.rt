ghost use Rattle.std.specs.Prelude.{◌≡◌, ◌<◌, ◌^◌, length, None, Some};
ghost use Rattle.cp_gate.specs.Histories.{SeatAdds};
ghost use Rattle.cp_gate.specs.Models.{IsSeatOf, places};

use cp_gate::{Gate, OutOfMemory, Seat, StandsFor};
use std::alloc::Global;
use std::sync::Wait;
use std::sync::atomic::{AtomicBool, Ordering};
use std::test::Fail;
use std::thread::{Threads, join, sleep};
use std::time::{Clock, Duration};

// The numbers of the seats that came by, each of which is an item that names its seat.
#[derive(Drop)]
struct Visits {
    numbers: Vec<u32>,
}

impl StandsFor for Visits {
    type Key = ();

    type Item = u32;

    ghost fits = { λ _ _ v. length v.numbers.items < 2 ^ 62 };

    ghost history = { λ _ _ v. v.numbers.items };

    ghost names = { λ _ number. Some number };

    fn items(&self) -> u64 {
        self.numbers.len() as u64
    }
}

// A value that is not `Drop`, and owns a seat of another gate.
struct Keeper {
    _seat: Seat<Visits>,
}

impl StandsFor for Keeper {
    ghost use Rattle.std.specs.Prelude.{[]};

    type Key = ();

    type Item = ();

    ghost fits = { λ _ _ _. Unit {0} };

    ghost history = { λ _ _ _. [] };

    ghost names = { λ _ _. None };

    fn items(&self) -> u64 {
        0
    }
}

fn needs_sync<X: Sync>(_shared: &X) {}

// Threads may share a gate of such values.
fn share(gate: &Gate<Keeper>) {
    needs_sync(gate);
}

fn visit(visits: &mut Visits, number: u32) -> Result<(), OutOfMemory>
    requires { length visits.old.numbers.items < 2 ^ 62 }
    ensures own { SeatAdds (λ n. Some n) number visits.old.numbers.items visits.new.numbers.items }
    ensures room { length visits.new.numbers.items < 2 ^ 62 }
{
    if visits.numbers.len() < 9 {
        visits.numbers.push(number)?;
    }
    Ok(())
}

// What the seats of a race tell each other.
#[derive(Drop)]
struct Flags {
    // The one is inside its place.
    inside: AtomicBool,
    // The other is about to enter its place.
    coming: AtomicBool,
    // The other has left its place again.
    gone: AtomicBool,
}

// Sleeps until the flag is set, a millisecond at a time and ten thousand times at most. It answers whether the flag was set by then.
fn wait_for<R: Clock>(rt: &R, flag: &AtomicBool) -> bool {
    for _ in 0..10_000 {
        if flag.load(Ordering::SeqCst) {
            return true;
        }
        sleep(rt, Duration::from_millis(1));
    }
    false
}

// Enters place 0 and stays there until the flag is set, and 50 milliseconds more. It answers whether it saw the flag set while it was inside.
fn stay<R: Wait + Clock>(
    rt: &R,
    gate: &Gate<Visits>,
    seat: &mut Seat<Visits>,
    inside: &AtomicBool,
    flag: &AtomicBool,
) -> bool
    requires { IsSeatOf gate.now seat.old × (seat.old.entered ≡ None) × (0 < places gate.now) }
    ensures { IsSeatOf gate.now seat.new × (seat.new.entered ≡ None) }
{
    let mut held = gate.enter(rt, seat, 0);
    inside.store(true, Ordering::SeqCst);
    let seen = wait_for(rt, flag);
    sleep(rt, Duration::from_millis(50));
    let done = visit(held.value_mut(), seat.number());
    gate.leave(seat, held);
    seen && done.is_ok()
}

// Enters a place and leaves it, once the one is inside place 0. It answers whether it saw the one inside before it entered, and who was at the place before it.
fn follow<R: Wait + Clock>(
    rt: &R,
    gate: &Gate<Visits>,
    seat: &mut Seat<Visits>,
    place: u32,
    flags: &Flags,
) -> (bool, Option<u32>)
    requires { IsSeatOf gate.now seat.old × (seat.old.entered ≡ None) × (place < places gate.now) }
    ensures { IsSeatOf gate.now seat.new × (seat.new.entered ≡ None) }
{
    let seen = wait_for(rt, &flags.inside);
    flags.coming.store(true, Ordering::SeqCst);
    let mut held = gate.enter(rt, seat, place);
    let before = held.value().numbers.last().copied();
    let done = visit(held.value_mut(), seat.number());
    gate.leave(seat, held);
    flags.gone.store(true, Ordering::SeqCst);
    (seen && done.is_ok(), before)
}

// One seat enters place 0, and then the other its place, which may be the same. The one leaves once it has seen that the other is gone, or, at the same place, that it is coming.
fn race<R: Threads + Wait + Clock + Sync>(
    rt: &R,
    gate: &Gate<Visits>,
    one: Seat<Visits>,
    other: Seat<Visits>,
    place: u32,
) -> ((Seat<Visits>, bool), (Seat<Visits>, (bool, Option<u32>)))
    requires { (0 < places gate.now) × (place < places gate.now) × IsSeatOf gate.now one × IsSeatOf gate.now other × (one.entered ≡ None) × (other.entered ≡ None) }
    ensures { IsSeatOf gate.now result.0.0 × IsSeatOf gate.now result.1.0 × (result.0.0.entered ≡ None) × (result.1.0.entered ≡ None) }
{
    let flags = Flags {
        inside: AtomicBool::new(false),
        coming: AtomicBool::new(false),
        gone: AtomicBool::new(false),
    };
    let flags = &flags;
    let flag = if place == 0 {
        &flags.coming
    } else {
        &flags.gone
    };
    join(
        rt,
        move ||
            requires { IsSeatOf gate.now one × (one.entered ≡ None) × (0 < places gate.now) }
            ensures { IsSeatOf gate.entry.now result.0 × (result.0.entered ≡ None) }
        {
            let mut one = one;
            let answer = stay(rt, gate, &mut one, &flags.inside, flag);
            (one, answer)
        },
        move ||
            requires { IsSeatOf gate.now other × (other.entered ≡ None) × (place < places gate.now) }
            ensures { IsSeatOf gate.entry.now result.0 × (result.0.entered ≡ None) }
        {
            let mut other = other;
            let answer = follow(rt, gate, &mut other, place, flags);
            (other, answer)
        },
    )
}

// A race of two seats at a gate of two places: whether the one saw the other coming or gone, what the
// other saw, and how many visits its place has had then.
fn race_at<R: Threads + Wait + Clock + Sync>(
    rt: &R,
    alloc: Global,
    same: bool,
) -> Result<(bool, (bool, Option<u32>), u64), OutOfMemory> {
    let mut values = Vec::new(alloc);
    values.push(Visits {
        numbers: Vec::new(alloc),
    })?;
    values.push(Visits {
        numbers: Vec::new(alloc),
    })?;
    let room = Vec::with_capacity(alloc, 2)?;
    let Ok((gate, mut seats)) = Gate::new(alloc, (), values, 2) else {
        return Err(OutOfMemory);
    };
    let other = seats.pop().unwrap();
    let one = seats.pop().unwrap();
    let place = if same { 0 } else { 1 };
    let ((mut one, stayed), (mut other, followed)) = race(rt, &gate, one, other, place);
    let looked = gate.look(&mut one, place);
    gate.tell(&mut one, &mut other);
    seats.push(one)?;
    seats.push(other)?;
    let _visits = gate.close(seats, room);
    Ok((stayed, followed, looked))
}

// While the one is inside its place, the other enters the other place and leaves it again, and the one
// sees that before it leaves. With one lock for all places the one would wait in vain, and the test
// would fail. Then the other comes to the place in which the one is. The one stays so long that the
// other normally sleeps by then, and leaves. The other enters, and finds the visit of the one. If
// nobody woke the other, the test would not end.
#[test]
fn places_go_side_by_side_and_a_seat_waits_for_its_place(rt: HostRuntime) -> Result<(), Fail> {
    for (same, before, visits) in [(false, None, 1), (true, Some(0), 2)] {
        let came_to = race_at(&rt, rt.alloc(), same)?;
        assert!(rt;
            came_to == (true, (true, before), visits),
            "at the same place: {same}"
        );
    }
    Ok(())
}
