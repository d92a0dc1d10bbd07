//! Reservations of one leaf over a file.
mod reserving;

use crate::vault::reserving::{format_blank, reserve_each};
use cp_outside::{FileDisk, MemDisk};
use std::io;
use std::time::Instant;

// Reserves over the file at this path, and prints what the reservations took.
fn measure_at(rt: &HostRuntime, path: &str, count: u64) -> io::Result<()> {
    let mut disk = FileDisk::new(rt, path);
    let Some(vault) = format_blank(&mut disk) else {
        return println!(rt; "the file is no blank one");
    };
    let begun = Instant::now(rt)?;
    let vault = reserve_each(vault, count);
    let time = begun.elapsed(rt)?.as_nanos();
    match vault {
        Some(vault) => println!(rt; "reserve {time} {}", vault.reserved()),
        None => println!(rt; "the disk failed"),
    }
}

/// Makes the reservations that the words ask for, and answers whether they ask for any.
pub fn measure(rt: &HostRuntime, words: &[String]) -> io::Result<bool> {
    if let [name, path, count] = words
        && name.as_str() == "vault"
        && let Ok(count) = count.as_str().parse::<u64>()
    {
        measure_at(rt, path.as_str(), count)?;
        return Ok(true);
    }
    Ok(false)
}

// How many leaves of a vault in memory are reserved after so many reservations.
fn in_memory(rt: &HostRuntime, count: u64) -> Option<u64> {
    let mut disk = MemDisk::new(rt.alloc(), 1 << 13, Vec::new(rt.alloc())).ok()?;
    let vault = reserve_each(format_blank(&mut disk)?, count)?;
    Some(vault.reserved())
}

/// A line that is always the same.
pub fn show(rt: &HostRuntime) -> io::Result<()> {
    match in_memory(rt, 20) {
        Some(reserved) => println!(rt; "{reserved} leaves are reserved on a disk in memory"),
        None => println!(rt; "out of memory"),
    }
}
