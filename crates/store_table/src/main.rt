//! Runs scripts through a store's two bodies, steps of closings through the plain machine, and beginnings
//! of closings through a closer. It is a table in the crate's `stdin` and `stdout`, since a row there
//! costs no proof, and one in a test costs much. A row is its lines and then how they are run:
//!
//!     replay PAGES    the lines are a script, which stores with so many pages in each shard replay
//!     steps           the lines are steps of closings, one a line: `begin`, `freeze SHARD`, `seal`,
//!                     `publish` and `read EPOCH`
//!     closer          the lines are epochs whose closing is begun, each with the name of the families
//!                     list for the next one, if one is named: `EPOCH`, `EPOCH first`, which is the list of
//!                     epoch 1, or `EPOCH other`
//!
//! The answer to a script is what both bodies print, and then `both bodies` where they also leave the
//! same key, hand-ins and files. That to steps and to beginnings is a line for each. A line that begins
//! with `#` is printed as it is.
#![tactic(auto)]

mod beginnings;
mod replays;
mod steps;

use crate::beginnings::beginnings;
use crate::replays::replay_both;
use crate::steps::answers;
use std::io::{self, BufRead, BufReader};

fn main(rt: HostRuntime) -> io::Result<()> {
    let alloc = rt.alloc();
    let mut lines = String::new(alloc);
    for line in BufReader::new(alloc, rt.reader())?.lines(alloc) {
        let line = line?;
        if line.starts_with('#') {
            println!(rt; "{line}")?;
        } else if let Some(pages) = line.strip_prefix("replay ") {
            let answer = replay_both(&rt, alloc, lines.as_str(), pages)?;
            print!(rt; "{answer}")?;
            lines.clear();
        } else if line.as_str() == "steps" {
            let answer = answers(alloc, lines.as_str())?;
            print!(rt; "{answer}")?;
            lines.clear();
        } else if line.as_str() == "closer" {
            let answer = beginnings(alloc, lines.as_str())?;
            print!(rt; "{answer}")?;
            lines.clear();
        } else {
            lines.push_str(line.as_str())?;
            lines.push('\n')?;
        }
    }
    Ok(())
}
