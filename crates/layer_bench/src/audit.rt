//! The audit of an epoch beside as many bare verifications.
mod calls;
mod epoch;
mod measuring;
mod signing;

use crate::audit::epoch::Epoch;
use crate::audit::measuring::is_clean;
use crate::audit::signing::key_of;
use cp_audit::audit;
use lms_tree::Height;
use std::io;

// A number of at least this and at most that.
fn number(word: &str, least: u32, most: u32) -> Option<u32> {
    match word.parse::<u32>() {
        Ok(number) if least <= number && number <= most => Some(number),
        _ => None,
    }
}

// How many calls and how many rows the words ask for.
fn asked(words: &[String]) -> Option<(u32, u32)> {
    match words {
        [what, calls, rows] if what.as_str() == "audit" => {
            let calls = number(calls.as_str(), 1, 1022)?;
            let rows = number(rows.as_str(), calls, 1_000_000)?;
            Some((calls, rows))
        }
        _ => None,
    }
}

/// Audits the epoch that the words ask for, and answers whether they ask for one.
pub fn measure(rt: &HostRuntime, words: &[String]) -> io::Result<bool> {
    let Some((calls, rows)) = asked(words) else {
        return Ok(false);
    };
    let key = key_of(rt.alloc(), Height::H10)?;
    measuring::measure(rt, &key, calls, rows)?;
    Ok(true)
}

/// A line that is always the same: the audit of an epoch of three calls.
pub fn show(rt: &HostRuntime) -> io::Result<()> {
    let key = key_of(rt.alloc(), Height::H5)?;
    let epoch = Epoch::new(rt.alloc(), &key, 3, 5)?;
    let answer = audit(rt.alloc(), &epoch.material(), epoch.handins());
    println!(rt; "an epoch of 3 calls: clean {}", is_clean(&answer, 3))
}
