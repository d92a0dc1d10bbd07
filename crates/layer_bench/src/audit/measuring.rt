//! The measurement.
use crate::audit::epoch::Epoch;
use cp_audit::{AuditRefusal, Material, Verdict, audit};
use cp_bytes::digest;
use cp_statements::Envelope;
use lms_tree::{PrivateKey, PublicKey, verify};
use std::io;
use std::time::Instant;

/// Whether the audit found an epoch of so many calls clean, all of them handed in.
pub fn is_clean(answer: &Result<Verdict, AuditRefusal>, calls: u32) -> bool {
    let calls = u64::from(calls);
    match answer {
        Ok(
            Verdict::Clean {
                entries,
                handed,
                aside,
            },
        ) => *entries == calls && *handed == calls && *aside == 0,
        _ => false,
    }
}

// How many of the signed texts verify.
fn verified(key: &PublicKey, signed: &[Envelope<'_>]) -> u64 {
    let mut count = 0u64;
    for x in signed {
        if verify(key, x.text, x.signature) {
            count = count.wrapping_add(1);
        }
    }
    count
}

// The sum of the first bytes of the hashes of the material's parts.
fn hashed(m: &Material<'_>) -> u64 {
    let parts = [
        m.families,
        m.before,
        m.closing,
        m.table_before,
        m.table,
        m.log,
    ];
    let mut sum = 0u64;
    for part in parts {
        let [first, ..] = digest(part);
        sum = sum.wrapping_add(u64::from(first));
    }
    sum
}

/// Audits an epoch of so many calls between tables of so many rows, verifies the same signatures by
/// themselves, hashes the material once, and prints what each took.
pub fn measure(rt: &HostRuntime, key: &PrivateKey, calls: u32, rows: u32) -> io::Result<()> {
    let alloc = rt.alloc();
    let epoch = Epoch::new(alloc, key, calls, rows)?;
    let material = epoch.material();
    let signed = epoch.signed(alloc, calls)?;
    let begun = Instant::now(rt)?;
    let answer = audit(alloc, &material, epoch.handins());
    let auditing = begun.elapsed(rt)?.as_nanos();
    let begun = Instant::now(rt)?;
    let count = verified(&material.key, signed.as_slice());
    let verifying = begun.elapsed(rt)?.as_nanos();
    let begun = Instant::now(rt)?;
    let sum = hashed(&material);
    let hashing = begun.elapsed(rt)?.as_nanos();
    if !is_clean(&answer, calls) {
        return println!(rt; "the epoch is not clean");
    }
    if count != u64::from(calls).wrapping_add(2) {
        return println!(rt; "not all signatures verify");
    }
    println!(rt; "audit {auditing} {verifying} {hashing} {sum}")
}
