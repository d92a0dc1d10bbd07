//! Seed files, and the threads that make a key.
ghost use Rattle.std.specs.Prelude.{◌≡◌, ◌+◌, ◌<◌, ◌≤◌, take, drop, length};

use std::thread::{Threads, available_parallelism};

/// The bytes of a seed file: SEED of 32 bytes and I of 16.
pub const SEED_LENGTH: u64 = 48;

// The most threads that make a key.
const MOST_WORKERS: usize = 64;

// How many threads make a key where std doesn't tell how many processors there are.
const USUAL_WORKERS: usize = 4;

/// As many threads as there are processors, and at most 64.
pub fn workers<R: Threads>(rt: &R) -> usize
    ensures { 0 < result }
{
    match available_parallelism(rt) {
        Ok(count) => count.get().min(MOST_WORKERS),
        Err(_) => USUAL_WORKERS,
    }
}

/// The part of a seed file from `at` on.
pub fn part<const N: usize>(bytes: &[u8], at: usize) -> [u8; N]
    requires { at + N ≤ length bytes.now }
    ensures { result ≡ take N (drop at bytes.now) }
{
    let mut out = [0u8; N];
    out.copy_from_slice(&bytes[at..at + N]);
    out
}
