//! Evidence of an illegal segment.
use cp_bytes::{OutOfMemory, digest, genesis, head};
use cp_evidence::write_k7;
use cp_statements::{Closing, Envelope};
use cp_tips::{Tip, build};
use lms_tree::PrivateKey;
use std::alloc::Global;
use std::collections::BTreeMap;

// A families list without a row.
const FAMILIES: &[u8] = b"CPf1\0\0\0\0";

// The leaf that signs the closing.
const LEAF: u32 = 30;

// A segment's bytes, and the head behind its last text.
#[derive(Drop)]
struct Segment {
    bytes: Vec<u8>,
    last: [u8; 32],
}

// So many times the text, none of which is an entry.
fn segment_of(alloc: Global, count: u32, text: &[u8]) -> Result<Segment, OutOfMemory> {
    let mut bytes = Vec::from_slice(alloc, &count.to_be_bytes())?;
    let [_, _, _, _, a, b, c, d] = (text.len() as u64).to_be_bytes();
    let mut last = genesis(0);
    for _ in 0..count {
        bytes.extend_from_slice(&[a, b, c, d])?;
        bytes.extend_from_slice(text)?;
        last = head(&last, text);
    }
    Ok(Segment { bytes, last })
}

// The table of block 0 alone.
fn table_of(alloc: Global, count: u32, last: [u8; 32]) -> Result<Vec<u8>, OutOfMemory> {
    let tip = Tip {
        count: u64::from(count),
        version: 0,
        content: [0; 32],
        head: last,
    };
    let mut tips = BTreeMap::new(alloc);
    tips.insert(0, tip)?;
    build(alloc, &tips)
}

/// Evidence under this key: in epoch 1 block 0 gained the text so many times, and its first one is no
/// entry.
pub fn illegal_segment(
    alloc: Global,
    key: &PrivateKey,
    count: u32,
    text: &[u8],
) -> Result<Vec<u8>, OutOfMemory> {
    let segment = segment_of(alloc, count, text)?;
    let table = table_of(alloc, count, segment.last)?;
    let closing = Closing {
        store: digest(&key.public().bytes()),
        epoch: 1,
        link: [0; 32],
        families: digest(FAMILIES),
        table: digest(table.as_slice()),
        rows: 1,
        entries: u64::from(count),
    };
    let closing = closing.text();
    let mut signature = vec![in alloc; 0u8; key.sig_len()]?;
    if LEAF < key.leaves() {
        key.sign_into(LEAF, &closing, signature.as_mut_slice());
    }
    let x = Envelope {
        text: &closing,
        signature: signature.as_slice(),
    };
    let none = Envelope {
        text: &[],
        signature: &[],
    };
    let mut evidence = Vec::new(alloc);
    write_k7(
        0,
        1,
        0,
        0,
        &x,
        &none,
        table.as_slice(),
        &[],
        FAMILIES,
        segment.bytes.as_slice(),
        &mut evidence,
    )?;
    Ok(evidence)
}
