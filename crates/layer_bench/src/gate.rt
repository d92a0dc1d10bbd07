//! Turns at a gate, by threads that each have a place of their own, and the same turns under a std `Mutex`
//! for each place.
mod counter;
mod gates;
mod locks;
mod task;

use crate::gate::gates::turns_at_gate;
use crate::gate::locks::turns_under_locks;
use crate::gate::task::{Guard, Task, task_of};
use std::alloc::Global;
use std::io;
use std::sync::Wait;
use std::thread::Threads;
use std::time::Instant;

// Takes the turns, and answers how many were counted.
fn counted<R: Threads + Wait + Sync>(rt: &R, alloc: Global, task: &Task) -> Option<u64> {
    match task.guard {
        Guard::Gate => turns_at_gate(rt, alloc, task.threads, task.turns),
        Guard::Mutex => turns_under_locks(rt, alloc, task.threads, task.turns),
    }
}

/// Takes the turns that the words ask for, in threads of `handle`, and answers whether they ask for any.
pub fn measure<R: Threads + Wait + Sync>(
    rt: &HostRuntime,
    handle: &R,
    words: &[String],
) -> io::Result<bool> {
    let Some(task) = task_of(words) else {
        return Ok(false);
    };
    let begun = Instant::now(rt)?;
    let counted = counted(handle, rt.alloc(), &task);
    let time = begun.elapsed(rt)?.as_nanos();
    match counted {
        Some(counted) => println!(rt; "turns {time} {counted}")?,
        None => println!(rt; "out of memory")?,
    }
    Ok(true)
}

/// A line that is always the same.
pub fn show<R: Threads + Wait + Sync>(rt: &HostRuntime, handle: &R) -> io::Result<()> {
    match turns_at_gate(handle, rt.alloc(), 4, 1000) {
        Some(counted) => println!(rt; "four threads took {counted} turns"),
        None => println!(rt; "out of memory"),
    }
}
