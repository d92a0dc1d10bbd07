//! The judge over evidence of an illegal segment, beside hashing the same bytes and verifying a signature by
//! themselves.
mod illegal;

use crate::judging::illegal::illegal_segment;
use cp_bytes::digest;
use cp_judge::{Judgement, judge};
use lms_ots::OtsType;
use lms_tree::{Height, PrivateKey, verify};
use std::alloc::Global;
use std::io;
use std::time::Instant;

const MEBIBYTE: usize = 0x10_0000;

// The store's key.
fn key_of(alloc: Global) -> Option<PrivateKey> {
    PrivateKey::make(alloc, [7; 32], [9; 16], Height::H5, OtsType::W8).ok()
}

// The number of MiB, if the words ask for one of 1 to 400.
fn mebibytes(words: &[String]) -> Option<u32> {
    let [name, word] = words else {
        return None;
    };
    if name.as_str() != "judge" {
        return None;
    }
    let number = word.as_str().parse::<u32>().ok()?;
    if number == 0 || number > 400 {
        return None;
    }
    Some(number)
}

// Judges evidence with so many texts of this size, and prints what it took in nanoseconds.
fn measure_count(rt: &HostRuntime, key: &PrivateKey, count: u32, size: usize) -> io::Result<()> {
    let text = vec![in rt.alloc(); 0u8; size]?;
    let evidence = illegal_segment(rt.alloc(), key, count, text.as_slice())?;
    let public = key.public();
    let begun = Instant::now(rt)?;
    let judgement = judge(&public.bytes(), evidence.as_slice());
    let judging = begun.elapsed(rt)?.as_nanos();
    let begun = Instant::now(rt)?;
    let [first, ..] = digest(evidence.as_slice());
    let hashing = begun.elapsed(rt)?.as_nanos();
    let mut signature = vec![in rt.alloc(); 0u8; key.sig_len()]?;
    if key.leaves() > 0 {
        key.sign_into(0, &[first], signature.as_mut_slice());
    }
    let begun = Instant::now(rt)?;
    let verified = verify(&public, &[first], signature.as_slice());
    let verifying = begun.elapsed(rt)?.as_nanos();
    let guilty = judgement == Judgement::Guilty { kind: 7 };
    println!(rt;
        "judge {judging} hash {hashing} verify {verifying} of {} bytes: guilty {guilty} {verified}",
        evidence.len()
    )
}

/// Judges the evidence that the words ask for, and answers whether they ask for any.
pub fn measure(rt: &HostRuntime, words: &[String]) -> io::Result<bool> {
    let Some(count) = mebibytes(words) else {
        return Ok(false);
    };
    match key_of(rt.alloc()) {
        Some(key) => measure_count(rt, &key, count, MEBIBYTE)?,
        None => println!(rt; "out of memory")?,
    }
    Ok(true)
}

/// A line that is always the same: the judgement of evidence of three short texts.
pub fn show(rt: &HostRuntime) -> io::Result<()> {
    let Some(key) = key_of(rt.alloc()) else {
        return println!(rt; "out of memory");
    };
    let evidence = illegal_segment(rt.alloc(), &key, 3, b"no entry")?;
    let guilty = judge(&key.public().bytes(), evidence.as_slice()) == Judgement::Guilty { kind: 7 };
    println!(rt; "{} bytes: guilty {guilty}", evidence.len())
}
