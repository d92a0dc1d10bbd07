//! A table of tips beside one hash over its bytes.
mod measuring;
mod tables;

use crate::table::tables::table_of;
use std::io;

/// Prints the nanoseconds that it takes to hash a table of so many rows once, to read it and judge it well
/// formed, and to compare it with its successor, in which each block has one entry more, and the first
/// bytes of the hash.
pub fn measure(rt: &HostRuntime, rows: u32) -> io::Result<()> {
    measuring::measure(rt, rows)
}

/// A line that is always the same.
pub fn show(rt: &HostRuntime) -> io::Result<()> {
    match table_of(rt.alloc(), 3, 2) {
        Some(table) => println!(rt; "a table of 3 rows has {} bytes", table.len()),
        None => println!(rt; "out of memory"),
    }
}
