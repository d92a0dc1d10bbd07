//! Times the layers, each beside what does the same without it, for `bench/layers`:
//!
//!     layer_bench gate THREADS TURNS          turns at a gate, by at most 16 threads
//!     layer_bench mutex THREADS TURNS         the same turns under a std `Mutex` for each place
//!     layer_bench session CONNECTIONS PIECE   connections of 9,999 requests, in pieces of PIECE bytes, or
//!                                             of as many as fit where it is 0
//!     layer_bench heads CONNECTIONS           the heads of so many, by `httparse` alone
//!     layer_bench vault FILE COUNT            reservations of one leaf over a file that is blank
//!     layer_bench gets BLOCKS CALLS           gets of a shard of so many blocks (at most 1,000,000, and
//!     layer_bench puts BLOCKS CALLS           at most 10,000,000 calls), and puts
//!     layer_bench audit CALLS ROWS            an epoch of at most 1,022 calls between tables of so many
//!                                             rows, at least as many and at most 1,000,000
//!     layer_bench judge MEBIBYTES             evidence with a segment of 1 to 400 texts of one MiB each
//!
//! Each prints the name of what was measured, nanoseconds, and counts or bytes of the result. Other words,
//! or none, get a fixed line of each layer.
#![tactic(auto)]

mod audit;
mod gate;
mod judging;
mod session;
mod shard;
mod vault;

use std::sync::Wait;
use std::thread::Threads;
use std::{env, io};

// The words after the program's name.
fn words_of(rt: &HostRuntime) -> io::Result<Vec<String>> {
    let mut words = Vec::new(rt.alloc());
    for word in env::args(rt)?.skip(1) {
        words.push(word)?;
    }
    Ok(words)
}

// Measures what the words ask for, and answers whether they ask for anything. `handle` is the runtime once
// more, as one that starts threads and waits.
fn measured<R: Threads + Wait + Sync>(
    rt: &HostRuntime,
    handle: &R,
    words: &[String],
) -> io::Result<bool> {
    Ok(
        gate::measure(rt, handle, words)?
            || session::measure(rt, handle, words)?
            || vault::measure(rt, words)?
            || shard::measure(rt, words)?
            || audit::measure(rt, words)?
            || judging::measure(rt, words)?,
    )
}

fn main(rt: HostRuntime) -> io::Result<()> {
    let words = words_of(&rt)?;
    if measured(&rt, &rt, words.as_slice())? {
        return Ok(());
    }
    gate::show(&rt, &rt)?;
    session::show(&rt, &rt)?;
    vault::show(&rt)?;
    shard::show(&rt)?;
    audit::show(&rt)?;
    judging::show(&rt)
}
