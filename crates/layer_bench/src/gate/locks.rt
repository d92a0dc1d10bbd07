//! Turns under std's `Mutex`.
ghost use Rattle.std.specs.Prelude.{◌≡◌, ◌<◌, ◌≤◌, length};

use crate::gate::counter::Counter;
use std::alloc::Global;
use std::sync::atomic::{AtomicU64, Ordering};
use std::sync::{Mutex, Wait};
use std::thread;
use std::thread::Threads;

// So many turns under a lock. What the counter has counted by then is added to `counted`.
fn take_turns<R: Wait>(rt: &R, lock: &Mutex<Counter>, turns: u64, counted: &AtomicU64) {
    let mut last = 0;
    for _turn in 0..turns {
        let mut value = lock.lock(rt);
        value.add();
        last = value.turns();
    }
    counted.fetch_add(last, Ordering::SeqCst);
}

/// How many turns have been counted once each of so many threads, at least one and at most 16, has
/// taken so many under a lock of its own. Nothing where memory is wanted.
pub fn turns_under_locks<R: Threads + Wait + Sync>(
    rt: &R,
    alloc: Global,
    threads: u32,
    turns: u64,
) -> Option<u64> {
    let threads = threads.clamp(1, 16) as usize;
    let mut locks = Vec::with_capacity(alloc, threads).ok()?;
    for _ in 0..threads {
        locks.push(Mutex::new(Counter::new())).ok()?;
    }
    let counted = AtomicU64::new(0);
    thread::for_each_mut(
        rt,
        locks.as_mut_slice(),
        threads,
        &|_, lock| take_turns(rt, lock, turns, &counted),
    );
    Some(counted.load(Ordering::SeqCst))
}
