//! What no clause says: answers worked out by hand, a fault at each call of the disk, and a crash at each moment.
use cp_outside::{MemDisk, OutOfMemory};
use key_vault::{LoadFault, Refused, Vault};
use std::alloc::Global;
use std::test::Fail;

const ID: [u8; 32] = [7; 32];

const LEAVES: u64 = 32;

const ROOM: u64 = 1 << 13;

// How many calls of the disk a formatting makes, and as many a reservation.
const CALLS: u64 = 4;

// A disk of which the calls with these numbers fail.
fn disk(alloc: Global, failing: &[u64]) -> Result<MemDisk, OutOfMemory> {
    MemDisk::new(alloc, ROOM, Vec::from_slice(alloc, failing)?)
}

// The number that a load finds, or why it finds none.
fn found(disk: &mut MemDisk, id: [u8; 32], leaves: u64) -> Result<u64, LoadFault> {
    match Vault::load(disk, id, leaves) {
        Ok(vault) => Ok(vault.reserved()),
        Err(refused) => Err(refused.why),
    }
}

// Formats a blank disk.
fn formatted(disk: &mut MemDisk) -> Option<Vault<'_, MemDisk>> {
    let Err(
        Refused {
            disk,
            why: LoadFault::Blank { .. },
        },
    ) = Vault::load(disk, ID, LEAVES)
    else {
        return None;
    };
    match Vault::format(disk, ID, LEAVES) {
        Ok(vault) => Some(vault),
        Err(_) => None,
    }
}

// Formats a blank disk and reserves twice, as far as it comes: the numbers of the reservations that
// answered.
fn reserve_twice(disk: &mut MemDisk, first: u64, second: u64) -> (Option<u64>, Option<u64>) {
    let Some(vault) = formatted(disk) else {
        return (None, None);
    };
    if first == 0 || second == 0 {
        return (None, None);
    }
    let Ok((vault, _range)) = vault.reserve(first) else {
        return (None, None);
    };
    let before = vault.reserved();
    match vault.reserve(second) {
        Ok((vault, _range)) => (Some(before), Some(vault.reserved())),
        Err(_) => (Some(before), None),
    }
}

#[test]
fn leaves_are_reserved_as_far_as_they_go(rt: HostRuntime) -> Result<(), Fail> {
    for (first, second, numbers, number) in [
        (2, 3, (Some(2), Some(5)), 5),
        (1, 31, (Some(1), Some(32)), 32),
        (1, 32, (Some(1), None), 1),
        (33, 1, (None, None), 0),
    ] {
        let mut disk = disk(rt.alloc(), &[])?;
        assert!(rt;
            reserve_twice(&mut disk, first, second) == numbers,
            "{first} {second}"
        );
        assert!(rt;
            found(&mut disk, ID, LEAVES) == Ok(number),
            "{first} {second}"
        );
    }
    Ok(())
}

#[test]
fn a_file_is_opened_or_refused(rt: HostRuntime) -> Result<(), Fail> {
    let mut disk = disk(rt.alloc(), &[])?;
    assert!(rt; found(&mut disk, ID, LEAVES) == Err(LoadFault::Blank { length: 0 }));
    assert!(rt; reserve_twice(&mut disk, 2, 3) == (Some(2), Some(5)));
    for (byte, leaves, want) in [
        (7, 5, Ok(5)),
        (
            7,
            4,
            Err(LoadFault::Damaged {
                reserved: 5,
                leaves: 4,
            }),
        ),
        (8, 4, Err(LoadFault::OtherKey)),
    ] {
        assert!(rt;
            found(&mut disk, [byte; 32], leaves) == want,
            "{byte} {leaves}"
        );
    }
    Ok(())
}

#[test]
fn each_call_of_the_disk_fails_in_turn(rt: HostRuntime) -> Result<(), Fail> {
    for call in 0..2 + 3 * CALLS {
        let numbers = reserve_twice(&mut disk(rt.alloc(), &[call])?, 2, 3);
        let reserved = (call >= 2 + 2 * CALLS).then_some(2);
        assert!(rt; numbers == (reserved, None), "call {call}");
    }
    for call in 0..2 {
        let found = found(&mut disk(rt.alloc(), &[call])?, ID, LEAVES);
        assert!(rt; found == Err(LoadFault::DiskFault), "call {call}");
    }
    Ok(())
}

// Whether the new number is found, and else the old one, after a crash behind so many calls of a
// second reservation.
fn has_new(alloc: Global, calls: u64, pick: u64) -> Option<bool> {
    let mut disk = disk(alloc, &[]).ok()?;
    disk.stop_after((2 + 2 * CALLS).saturating_add(calls));
    if reserve_twice(&mut disk, 5, 7) != (Some(5), (calls == CALLS).then_some(12)) {
        return None;
    }
    match found(&mut disk.crash(alloc, pick).ok()?, ID, LEAVES) {
        Ok(5) => Some(false),
        Ok(12) => Some(true),
        _ => None,
    }
}

// Of how many of 64 images the new number is found, where each has one of the two.
fn count_of_new(alloc: Global, calls: u64) -> Option<u32> {
    let mut count = 0u32;
    for pick in 0..64 {
        if has_new(alloc, calls, pick)? {
            count = count.saturating_add(1);
        }
    }
    Some(count)
}

// Before the gate byte is written no image has the new number, while it is some have either, and once
// it is synced all have it.
#[test]
fn a_stopped_reservation_leaves_the_old_number_or_the_new_one(rt: HostRuntime) {
    for (calls, least, most) in [(0, 0, 0), (1, 0, 0), (2, 0, 0), (3, 1, 63), (4, 64, 64)] {
        let count = count_of_new(rt.alloc(), calls).unwrap_or(99);
        assert!(&rt; least <= count && count <= most, "{count} at {calls}");
    }
}
