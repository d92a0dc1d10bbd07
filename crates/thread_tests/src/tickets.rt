ghost use Rattle.std.specs.Prelude.{◌≡◌};
ghost use Rattle.leaf_tickets.specs.Models.{IsSeatOf};

use leaf_tickets::{LeafSeat, Leaves, LeavesOver};
use std::sync::Wait;
use std::test::Fail;
use std::thread::{Threads, join};

// Draws 14 numbers below 28. It answers the seat with the bits of the numbers.
fn draw_some<R: Wait>(rt: &R, leaves: &Leaves, mut seat: LeafSeat) -> (LeafSeat, u64)
    requires { IsSeatOf leaves.now seat }
    ensures { IsSeatOf leaves.now result.0 }
{
    let mut drawn = 0;
    for _ in 0..14 {
        if let Ok(number) = leaves.draw(rt, &mut seat, 28) {
            drawn |= 1u64 << number;
        }
    }
    (seat, drawn)
}

fn race<R: Threads + Wait + Sync>(
    rt: &R,
    leaves: &Leaves,
    one: LeafSeat,
    other: LeafSeat,
) -> ((LeafSeat, u64), (LeafSeat, u64))
    requires { IsSeatOf leaves.now one × IsSeatOf leaves.now other }
    ensures { IsSeatOf leaves.now result.0.0 × IsSeatOf leaves.now result.1.0 }
{
    join(
        rt,
        move ||
            requires { IsSeatOf leaves.now one }
            ensures { IsSeatOf leaves.entry.now result.0 }
        { draw_some(rt, leaves, one) },
        move ||
            requires { IsSeatOf leaves.now other }
            ensures { IsSeatOf leaves.entry.now result.0 }
        { draw_some(rt, leaves, other) },
    )
}

// Two threads draw 14 numbers each. They are 0 to 27, each once, and no more is left.
#[test]
fn two_threads_draw_each_number_once(rt: HostRuntime) -> Result<(), Fail> {
    let (leaves, mut seats) = Leaves::new(rt.alloc(), 2)?;
    let one = seats.pop().unwrap();
    let other = seats.pop().unwrap();
    let ((mut one, first), (other, second)) = race(&rt, &leaves, one, other);
    assert_eq!(rt; first | second, 0xfff_ffff);
    assert_eq!(rt; (first.count_ones(), second.count_ones()), (14, 14));
    let over = leaves.draw(&rt, &mut one, 28);
    assert_eq!(rt;
        over,
        Err(LeavesOver {
            drawn: 28,
            limit: 28
        })
    );
    assert_eq!(rt; leaves.look(&mut one), 28);
    seats.push(one)?;
    seats.push(other)?;
    assert_eq!(rt; leaves.close(seats), 28);
    Ok(())
}

// A counter that begins at 5 gives 5 first.
#[test]
fn a_later_start(rt: HostRuntime) -> Result<(), Fail> {
    let (leaves, mut seats) = Leaves::resume(rt.alloc(), 5, 1)?;
    let mut seat = seats.pop().unwrap();
    assert_eq!(rt; leaves.draw(&rt, &mut seat, 6), Ok(5));
    assert_eq!(rt;
        leaves.draw(&rt, &mut seat, 6),
        Err(LeavesOver { drawn: 6, limit: 6 })
    );
    seats.push(seat)?;
    assert_eq!(rt; leaves.close(seats), 6);
    Ok(())
}
