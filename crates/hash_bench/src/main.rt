//! Times chain steps, key making, signing and verifying, and a table of tips, for `bench/run`, which sets
//! the first of them beside the same work in C:
//!
//!     hash_bench step CHAINS BODY
//!     hash_bench make HEIGHT WIDTH WORKERS BODY
//!     hash_bench sign WIDTH ROUNDS BODY
//!     hash_bench table ROWS
//!
//! BODY is `lanes` (four chains side by side) or `plain` (one after another), and ROWS at most 1,000,000.
//! Each prints nanoseconds and some bytes of the result. Other words, or none, get two fixed lines.
#![tactic(auto)]

ghost use Rattle.std.specs.Prelude.{◌<◌};

mod measuring;
mod steps;
mod table;
mod task;
mod tree;

use crate::measuring::{measure_lanes, measure_plain, measure_steps, print_make};
use crate::steps::ends_by_lanes;
use crate::task::{Body, ID, SEED, Task, front, task_of};
use crate::tree::Tree;
use lms_ots::OtsType;
use lms_tree::{Height, PrivateKey};
use std::alloc::Global;
use std::thread::Threads;
use std::time::Instant;
use std::{env, io};

// The root of the key that so many workers make.
fn root<R: Threads + Sync>(
    rt: &R,
    alloc: Global,
    height: Height,
    ots: OtsType,
    workers: usize,
    body: Body,
) -> Option<[u8; 32]>
    requires { 0 < workers }
{
    match body {
        Body::Lanes => {
            let key = PrivateKey::make_by(rt, alloc, workers, SEED, ID, height, ots).ok()?;
            let mut root = [0; 32];
            root.copy_from_slice(&key.public().bytes()[24..56]);
            Some(root)
        }
        Body::Plain => Some(Tree::make_by(rt, alloc, workers, height, ots)?.node(1)),
    }
}

fn words_of(rt: &HostRuntime) -> io::Result<Vec<String>> {
    let mut words = Vec::new(rt.alloc());
    for word in env::args(rt)?.skip(1) {
        words.push(word)?;
    }
    Ok(words)
}

fn main(rt: HostRuntime) -> io::Result<()> {
    let words = words_of(&rt)?;
    match task_of(words.as_slice()) {
        Some(Task::Step(chains, body)) => measure_steps(&rt, chains, body),
        Some(Task::Make(height, ots, workers, body)) => {
            let begun = Instant::now(&rt)?;
            let root = root(&rt, rt.alloc(), height, ots, workers.max(1), body);
            print_make(&rt, begun, root)
        }
        Some(Task::Sign(ots, rounds, Body::Lanes)) => measure_lanes(&rt, ots, rounds),
        Some(Task::Sign(ots, rounds, Body::Plain)) => {
            match Tree::make_by(&rt, rt.alloc(), 1, Height::H5, ots) {
                Some(tree) => measure_plain(&rt, &tree, ots, rounds),
                None => println!(rt; "out of memory"),
            }
        }
        Some(Task::Table(rows)) => table::measure(&rt, rows),
        None => {
            println!(rt;
                "four chains of 255 steps end in {:016x}",
                front(&ends_by_lanes(1))
            )?;
            table::show(&rt)
        }
    }
}
