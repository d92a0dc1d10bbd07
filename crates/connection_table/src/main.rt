//! Serves connections in memory, by one call of `serve_connection` each, and prints what they got. It
//! is a table in the crate's `stdin` and `stdout`, since a row there costs no proof, and one in a test
//! costs much:
//!
//!     PIECE FAILING BYTES
//!
//! PIECE is the most bytes that one read gives, and FAILING the number of the read or write that fails,
//! from 0, or `-` where none does. BYTES is what the connection sends: parts with `|` between them, each
//! a text or `N*` and a text that comes N times, in which `\r` and `\n` stand for the carriage return
//! and the line feed. The answer is the session's and then what was written, or how many bytes they are
//! where they are many. A line that begins with `#` is printed as it is.
#![tactic(auto)]

mod desk;
mod link;
mod row;
mod serving;

use crate::serving::answer;
use std::io::{self, BufRead, BufReader};

fn main(rt: HostRuntime) -> io::Result<()> {
    let alloc = rt.alloc();
    for line in BufReader::new(alloc, rt.reader())?.lines(alloc) {
        let line = line?;
        if line.starts_with('#') {
            println!(rt; "{line}")?;
        } else {
            let answer = answer(&rt, alloc, line.as_str())?;
            println!(rt; "{answer}")?;
        }
    }
    Ok(())
}
