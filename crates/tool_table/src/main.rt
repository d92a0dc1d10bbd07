//! Runs commands over a folder, a vault's disk and a sink in memory, and lets one call of theirs
//! fail. It is a table in the crate's `stdin` and `stdout`, since a row there costs no proof:
//!
//!     FOLDER DISK SINK WORDS
//!
//! The first three are the numbers of the calls that fail, from 0, or `-` where none does; then
//! come the command's words. The folder has four files, which its calls 0 to 3 wrote (`INPUTS`).
//! The answer is the status, the files that were written, and behind a colon what was printed. A
//! line that begins with `#` is printed as it is.
#![tactic(auto)]

mod outcome;
mod row;

use crate::outcome::outcome;
use crate::row::Row;
use std::io::{self, BufRead, BufReader};

fn main(rt: HostRuntime) -> io::Result<()> {
    let alloc = rt.alloc();
    for line in BufReader::new(alloc, rt.reader())?.lines(alloc) {
        let line = line?;
        if line.starts_with('#') {
            println!(rt; "{line}")?;
        } else {
            let row = Row::read(alloc, line.as_str())?;
            let answer = outcome(&rt, alloc, row)?;
            println!(rt; "{}", answer.as_str().trim_end())?;
        }
    }
    Ok(())
}
