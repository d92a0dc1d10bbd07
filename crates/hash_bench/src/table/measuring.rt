//! The measurement.
use crate::table::tables::table_of;
use cp_bytes::digest;
use cp_tips::{TableText, first_regress};
use std::io;
use std::time::Instant;

// The first eight bytes as a number.
fn front(hash: &[u8; 32]) -> u64 {
    u64::from_be_bytes([
        hash[0], hash[1], hash[2], hash[3], hash[4], hash[5], hash[6], hash[7],
    ])
}

/// Makes a table of so many rows and its successor, and prints what hashing the first once, judging it
/// and comparing it with the second took.
pub fn measure(rt: &HostRuntime, rows: u32) -> io::Result<()> {
    let (Some(table), Some(next)) = (table_of(rt.alloc(), rows, 2), table_of(rt.alloc(), rows, 3))
    else {
        return println!(rt; "out of memory");
    };
    let begun = Instant::now(rt)?;
    let hash = digest(table.as_slice());
    let hashing = begun.elapsed(rt)?.as_nanos();

    let begun = Instant::now(rt)?;
    let Ok(table) = TableText::read(table.as_slice()) else {
        return println!(rt; "the table does not read");
    };
    let fine = table.well_formed(u64::from(rows), 2 * u64::from(rows));
    let judging = begun.elapsed(rt)?.as_nanos();

    let Ok(next) = TableText::read(next.as_slice()) else {
        return println!(rt; "the successor does not read");
    };
    if !fine || !next.well_formed(u64::from(rows), 3 * u64::from(rows)) {
        return println!(rt; "a table is not well formed");
    }
    let begun = Instant::now(rt)?;
    let regress = first_regress(&table, &next);
    let comparing = begun.elapsed(rt)?.as_nanos();
    if regress.is_some() {
        return println!(rt; "a block went back");
    }
    println!(rt;
        "hash {hashing} judge {judging} compare {comparing} {:016x}",
        front(&hash)
    )
}
