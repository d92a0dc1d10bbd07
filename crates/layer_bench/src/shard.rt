//! The calls of a shard beside a map with the same keys.
mod measuring;
mod putting;
mod store;
mod yardstick;

use crate::shard::measuring::{gets, made};
use crate::shard::putting::puts;
use std::io;

// A number of at least one and at most this.
fn number(word: &str, most: u64) -> Option<u64> {
    match word.parse::<u64>() {
        Ok(number) if 1 <= number && number <= most => Some(number),
        _ => None,
    }
}

// How many blocks and how many calls the words of this name ask for.
fn asked(words: &[String], wanted: &str) -> Option<(u64, u64)> {
    match words {
        [name, blocks, calls] if name.as_str() == wanted => Some((
            number(blocks.as_str(), 1_000_000)?,
            number(calls.as_str(), 10_000_000)?,
        )),
        _ => None,
    }
}

/// Makes the calls that the words ask for, and answers whether they ask for any.
pub fn measure(rt: &HostRuntime, words: &[String]) -> io::Result<bool> {
    if let Some((blocks, calls)) = asked(words, "gets") {
        gets(rt, blocks, calls)?;
        return Ok(true);
    }
    if let Some((blocks, calls)) = asked(words, "puts") {
        puts(rt, blocks, calls)?;
        return Ok(true);
    }
    Ok(false)
}

/// A line that is always the same.
pub fn show(rt: &HostRuntime) -> io::Result<()> {
    match made(rt.alloc(), 3) {
        Some(store) => println!(rt; "a shard of 3 blocks has {} items", store.items()),
        None => println!(rt; "out of memory"),
    }
}
