//! The measurement of gets.
use crate::shard::store::{Store, block_at};
use crate::shard::yardstick::Yardstick;
use std::alloc::Global;
use std::io;
use std::time::Instant;

/// How far on the next call's block is, so that neighbours do not follow one another.
const STRIDE: u64 = 7919;

/// Which of so many blocks a call is of, of those that are asked in turn.
pub fn place_of(call: u64, blocks: u64) -> u64 {
    if blocks == 0 {
        0
    } else {
        call.wrapping_mul(STRIDE) % blocks
    }
}

/// A shard with so many blocks, each of which was read once; none where memory is wanted.
pub fn made(alloc: Global, blocks: u64) -> Option<Store> {
    made_with(alloc, blocks, 0, b"CPf1\0\0\0\0")
}

/// The same with so many pages and this families list.
pub fn made_with(alloc: Global, blocks: u64, pages: u32, list: &[u8]) -> Option<Store> {
    let mut store = Store::new(alloc, pages, list)?;
    for n in 0..blocks {
        if !store.get(alloc, block_at(n), 0) {
            return None;
        }
    }
    Some(store)
}

/// A map with so many blocks; none where memory is wanted.
pub fn map_of(alloc: Global, blocks: u64) -> Option<Yardstick> {
    let mut map = Yardstick::new(alloc);
    for n in 0..blocks {
        map.turn(block_at(n), 0)?;
    }
    Some(map)
}

// How many of so many gets are answered.
fn ask_all(alloc: Global, store: &mut Store, blocks: u64, calls: u64) -> u64 {
    let mut answered = 0u64;
    for call in 0..calls {
        let block = block_at(place_of(call, blocks));
        if store.get(alloc, block, call.wrapping_add(1)) {
            answered = answered.wrapping_add(1);
        }
    }
    answered
}

// How many of the same turns find their block.
fn turn_all(map: &mut Yardstick, blocks: u64, calls: u64) -> u64 {
    let mut found = 0u64;
    for call in 0..calls {
        let block = block_at(place_of(call, blocks));
        if map.turn(block, (call % 256) as u8) == Some(true) {
            found = found.wrapping_add(1);
        }
    }
    found
}

/// Asks so many gets of so many blocks, and prints what they took beside the same turns of a map.
pub fn gets(rt: &HostRuntime, blocks: u64, calls: u64) -> io::Result<()> {
    let alloc = rt.alloc();
    let (Some(mut store), Some(mut map)) = (made(alloc, blocks), map_of(alloc, blocks)) else {
        return println!(rt; "out of memory");
    };
    let begun = Instant::now(rt)?;
    let answered = ask_all(alloc, &mut store, blocks, calls);
    let asking = begun.elapsed(rt)?.as_nanos();
    let begun = Instant::now(rt)?;
    let found = turn_all(&mut map, blocks, calls);
    let turning = begun.elapsed(rt)?.as_nanos();
    if answered != calls || found != calls {
        return println!(rt; "not all calls were answered");
    }
    println!(rt; "gets {asking} {turning} {calls}")
}
