//! What a disk in memory does to its bytes.
ghost use Rattle.std.specs.Prelude.{◌≡◌, ◌+◌, ◌*◌, ◌-◌, ◌<◌, ◌≤◌, ◌++◌, ◌∷◌, [], max, take, drop, replicate, length, IsOk, OnOk, vec_len, vec_capacity};
ghost use Rattle.cp_outside.specs.Disks.{overwritten, there_is};

use crate::disk_call::DiskCall;
use std::alloc::AllocError;

// Puts the bytes from `at` on into the front of a buffer, as many as there are.
pub(crate) fn give(bytes: &[u8], at: u64, into: &mut [u8]) -> usize
    ensures count { result ≡ there_is bytes.now at (length into.old) }
    ensures bytes { take result into.new ≡ take result (drop at bytes.now) }
{
    if at >= bytes.len() as u64 {
        return 0;
    }
    let rest = &bytes[at as usize..];
    let count = rest.len().min(into.len());
    into[..count].copy_from_slice(&rest[..count]);
    count
}

// How much of the room a write of so many bytes at `at` fills, over a content of this length.
pub(crate) fn cost(length: usize, at: u64, size: usize) -> u128
    ensures none { size ≡ 0 → result ≡ 64 }
    ensures some { 0 < size → result ≡ 64 + size + ((at + size) - length) }
{
    if size == 0 {
        return 64;
    }
    let end = at as u128 + size as u128;
    64 + size as u128 + end.saturating_sub(length as u128)
}

// Adds a call where there is room.
pub(crate) fn note(calls: &mut Vec<DiskCall>, call: DiskCall)
    requires { vec_len calls.old < vec_capacity calls.old }
    ensures items { calls.new.items ≡ calls.old.items ++ call ∷ [] }
    ensures len { vec_len calls.new ≡ vec_len calls.old + 1 }
    ensures capacity { vec_capacity calls.old ≤ vec_capacity calls.new }
{
    match calls.push(call) {
        Ok(()) => {}
        Err(_) => unreachable!(),
    }
}

// Adds bytes where there is room.
pub(crate) fn keep(kept: &mut Vec<u8>, bytes: &[u8])
    requires { vec_len kept.old + length bytes.now ≤ vec_capacity kept.old }
    ensures items { kept.new.items ≡ kept.old.items ++ bytes.now }
    ensures len { vec_len kept.new ≡ vec_len kept.old + length bytes.now }
    ensures capacity { vec_capacity kept.old ≤ vec_capacity kept.new }
{
    match kept.extend_from_slice(bytes) {
        Ok(()) => {}
        Err(_) => unreachable!(),
    }
}

// Makes the content at least so long, by zeros.
fn grow(content: &mut Vec<u8>, end: usize) -> Result<(), AllocError>
    ensures items { OnOk result (content.new.items ≡ content.old.items ++ replicate (end - vec_len content.old) 0) }
    ensures len { OnOk result (vec_len content.new ≡ max (vec_len content.old) end) }
    ensures capacity { vec_capacity content.old ≤ vec_capacity content.new }
    ensures succeeds { end ≤ vec_capacity content.old → IsOk result }
{
    if end > content.len() {
        content.resize(end, 0)?;
    }
    Ok(())
}

// Puts a part in the place of as many bytes.
fn put(bytes: &mut [u8], at: usize, part: &[u8])
    requires { at + length part.now ≤ length bytes.old }
    ensures { bytes.new ≡ take at bytes.old ++ part.now ++ drop (at + length part.now) bytes.old }
{
    bytes[at..at + part.len()].copy_from_slice(part);
}

// Writes bytes over the content.
pub(crate) fn overwrite(content: &mut Vec<u8>, at: usize, bytes: &[u8]) -> Result<(), AllocError>
    ensures items { OnOk result (content.new.items ≡ overwritten content.old.items at bytes.now) }
    ensures capacity { vec_capacity content.old ≤ vec_capacity content.new }
    ensures succeeds { (0 < length bytes.now → at + length bytes.now ≤ vec_capacity content.old) → IsOk result }
{
    if bytes.is_empty() {
        return Ok(());
    }
    if bytes.len() > usize::MAX - at {
        return Err(AllocError);
    }
    let end = at + bytes.len();
    grow(content, end)?;
    put(content, at, bytes);
    Ok(())
}

// Writes bytes over the content where there is room.
pub(crate) fn overwrite_within(content: &mut Vec<u8>, at: usize, bytes: &[u8])
    requires { 0 < length bytes.now → at + length bytes.now ≤ vec_capacity content.old }
    ensures items { content.new.items ≡ overwritten content.old.items at bytes.now }
    ensures capacity { vec_capacity content.old ≤ vec_capacity content.new }
{
    match overwrite(content, at, bytes) {
        Ok(()) => {}
        Err(_) => unreachable!(),
    }
}
