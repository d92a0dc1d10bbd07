//! Reads bytes of each form, and prints where reading refuses them. It is a table of what
//! independent implementations answer, in the crate's `stdin` and `stdout`, since a row there costs
//! no proof, and one in a test costs much:
//!
//!     FORM HEX
//!
//! HEX is the bytes in hexadecimal, or `-` where there are none. The answer is `reads`, or
//! `malformed` and the place of the first fault; three forms have answers of their own (`Form`). A
//! line that begins with `#` is printed as it is, and any other that is no row gets `no row`.
#![tactic(auto)]

mod answering;
mod chain;
mod form;
mod lanes;
mod reading;
mod signing;

use crate::answering::answer;
use std::io;

fn main(rt: HostRuntime) -> io::Result<()> {
    let alloc = rt.alloc();
    for line in rt.lines(alloc) {
        let line = line?;
        if line.starts_with('#') {
            println!(rt; "{line}")?;
        } else {
            let answer = answer(&rt, alloc, line.as_str())?;
            println!(rt; "{answer}")?;
        }
    }
    Ok(())
}
