//! The bytes of a vault's file.
ghost use Rattle.std.specs.Prelude.{◌≡◌, ◌+◌, ◌-◌, ◌^◌, ◌<◌, ◌≤◌, ◌++◌, take, drop, length, IfOk, MatchOption, MatchResult};
ghost use Rattle.std.specs.Int.{w64, from_be_bytes};
ghost use Rattle.std.specs.Str.{bytes_eq};
ghost use Rattle.key_vault.specs.Slots.{slot_bytes, fresh_slots, opening, gate_of, id_in};

use crate::faults::LoadFault;

/// The bytes of a file that are read: both slots and the gate byte.
pub(crate) const FILE: usize = 129;

/// Where the gate byte stands.
pub(crate) const GATE: u64 = 128;

// What a file that was opened has: the reserved number, and which slot is current.
#[derive(Clone, Copy)]
pub(crate) struct Found {
    pub(crate) reserved: u64,
    pub(crate) gate: u64,
}

// Puts a part in the place of as many bytes.
fn put(bytes: &mut [u8], at: usize, part: &[u8])
    requires { at + length part.now ≤ length bytes.old }
    ensures { bytes.new ≡ take at bytes.old ++ part.now ++ drop (at + length part.now) bytes.old }
{
    bytes[at..at + part.len()].copy_from_slice(part);
}

// The 40 bytes of a slot.
pub(crate) fn slot(id: &[u8; 32], number: u64) -> [u8; 40]
    ensures { result ≡ slot_bytes id.now number }
{
    let mut bytes = [0; 40];
    put(&mut bytes, 0, id);
    put(&mut bytes, 32, &number.to_be_bytes());
    bytes
}

// The 128 bytes of both slots, with no leaf reserved.
pub(crate) fn both_slots(id: &[u8; 32]) -> [u8; 128]
    ensures bytes { result ≡ fresh_slots id.now }
    ensures size { length id.now ≡ 32 }
{
    let mut bytes = [0; 128];
    put(&mut bytes, 0, id);
    put(&mut bytes, 64, id);
    bytes
}

// Whether a slot names the key with this id.
fn names(slot: &[u8], id: &[u8; 32]) -> bool
    requires { length slot.now ≡ 40 }
    ensures { result ≡ bytes_eq (take 32 slot.now) id.now }
{
    let (name, _) = slot.split_at(32);
    name == id.as_slice()
}

// The number in a slot.
fn number(slot: &[u8]) -> u64
    requires { length slot.now ≡ 40 }
    ensures { result ≡ from_be_bytes w64 (drop 32 slot.now) }
{
    let mut bytes = [0; 8];
    bytes.copy_from_slice(&slot[32..]);
    u64::from_be_bytes(bytes)
}

// The slot that isn't current.
pub(crate) fn other_slot(gate: u64) -> u64
    ensures { result ≡ 1 - gate }
{
    if gate == 0 { 1 } else { 0 }
}

// The number after n further leaves, where the key has so many.
pub(crate) fn next_number(reserved: u64, n: u64, leaves: u64) -> Option<u64>
    ensures { MatchOption result (leaves < reserved + n) (λ next. (next ≡ reserved + n) × (next ≤ leaves) × (next < 2 ^ 64)) }
{
    let next = reserved.checked_add(n)?;
    if next > leaves {
        return None;
    }
    Some(next)
}

// Opens a file of which these bytes were read, at most 129.
pub(crate) fn opened(file: &[u8], id: &[u8; 32], leaves: u64) -> Result<Found, LoadFault>
    requires { length file.now ≤ 129 }
    ensures answer { MatchResult result
        (λ found. opening id.now leaves file.now ≡ Ok found.reserved)
        (λ fault. opening id.now leaves file.now ≡ Err fault) }
    ensures found { IfOk result (λ found. (length file.now ≡ 129) × (gate_of file.now ≡ found.gate)
        × (id_in file.now ≡ id.now) × (found.reserved ≤ leaves)) }
{
    if file.len() < FILE {
        return Err(LoadFault::Blank {
            length: file.len() as u64,
        });
    }
    let gate = (file[128] % 2) as usize;
    let slot = &file[64 * gate..64 * gate + 40];
    if !names(slot, id) {
        return Err(LoadFault::OtherKey);
    }
    let reserved = number(slot);
    if reserved > leaves {
        return Err(LoadFault::Damaged { reserved, leaves });
    }
    Ok(Found {
        reserved,
        gate: gate as u64,
    })
}
