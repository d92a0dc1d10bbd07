//! Requests over a link in memory and a desk that replies at once, and `httparse` alone on the same heads.
mod desk;
mod heads;
mod link;
mod sessions;
mod task;

use crate::session::heads::read_heads;
use crate::session::sessions::{Counts, REQUESTS, requests, serve_all};
use crate::session::task::{Task, task_of};
use std::io;
use std::sync::Wait;
use std::time::Instant;

// Prints the time since `begun`, in which connections came to this.
fn print_session(rt: &HostRuntime, begun: Instant, counts: &Counts) -> io::Result<()> {
    let time = begun.elapsed(rt)?.as_nanos();
    println!(rt;
        "session {time} {} {} {} {}",
        counts.answered, counts.read, counts.written, counts.moved
    )
}

// Reads the heads of so many connections by `httparse` alone, and prints what that took.
fn measure_heads(rt: &HostRuntime, input: &[u8], connections: u32) -> io::Result<()> {
    let mut read = 0u64;
    let begun = Instant::now(rt)?;
    for _ in 0..connections {
        read = read.saturating_add(read_heads(input));
    }
    let time = begun.elapsed(rt)?.as_nanos();
    println!(rt; "heads {time} {read}")
}

/// Serves what the words ask for, and answers whether they ask for anything.
pub fn measure<R: Wait>(rt: &HostRuntime, handle: &R, words: &[String]) -> io::Result<bool> {
    let Some(task) = task_of(words) else {
        return Ok(false);
    };
    let input = requests(rt.alloc())?;
    match task {
        Task::Session { connections, piece } => {
            let begun = Instant::now(rt)?;
            let counts = serve_all(handle, rt.alloc(), input.as_slice(), connections, piece);
            print_session(rt, begun, &counts)?;
        }
        Task::Heads { connections } => measure_heads(rt, input.as_slice(), connections)?,
    }
    Ok(true)
}

/// A line that is always the same.
pub fn show<R: Wait>(rt: &HostRuntime, handle: &R) -> io::Result<()> {
    let input = requests(rt.alloc())?;
    let counts = serve_all(handle, rt.alloc(), input.as_slice(), 1, 0);
    println!(rt;
        "{} of {REQUESTS} requests were answered with {} bytes",
        counts.answered, counts.written
    )
}
