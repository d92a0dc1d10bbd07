//! The calls of an epoch: gets, each on a block of its own.
use crate::audit::signing::{push_part, push_signed};
use cp_bytes::{OutOfMemory, digest, genesis, head};
use cp_statements::{Attestation, Entry, Kind};
use cp_tips::Tip;
use lms_tree::PrivateKey;
use std::alloc::Global;
use std::collections::BTreeMap;

/// The number of the audited epoch.
pub const EPOCH: u64 = 2;

// The hash of each block's content.
const CONTENT: [u8; 32] = [5; 32];

/// What some calls leave: the log of the epoch, the attestations as hand-ins, and the tips of all blocks.
#[derive(Drop)]
pub struct Calls {
    pub log: Vec<u8>,
    pub handins: Vec<u8>,
    pub tips: BTreeMap<u64, Tip>,
}

/// The tips of so many blocks, each of which has one entry.
pub fn tips_of(alloc: Global, rows: u32) -> Result<BTreeMap<u64, Tip>, OutOfMemory> {
    let mut tips = BTreeMap::new(alloc);
    for block in 0..rows {
        tips.insert(u64::from(block), tip_of(u64::from(block)))?;
    }
    Ok(tips)
}

// The tip of a block of one entry.
fn tip_of(block: u64) -> Tip {
    Tip {
        count: 1,
        version: 1,
        content: CONTENT,
        head: genesis(block),
    }
}

// The text of the entry of a get on the block.
fn entry_text(alloc: Global, block: u64, nonce: u64) -> Result<Vec<u8>, OutOfMemory> {
    let entry = Entry {
        kind: Kind::Get,
        epoch: EPOCH,
        block,
        position: 1,
        client: 2,
        nonce,
        version: 1,
        content: CONTENT,
        signature: &[],
    };
    let mut text = Vec::new(alloc);
    entry.write_into(&mut text)?;
    Ok(text)
}

// What the store attests of a get on the block, which leads from this tip to that head.
fn attested(store: [u8; 32], block: u64, nonce: u64, prev: [u8; 32], head: [u8; 32]) -> [u8; 177] {
    Attestation {
        store,
        kind: Kind::Get,
        epoch: EPOCH,
        block,
        position: 1,
        client: 2,
        nonce,
        version: 1,
        content: CONTENT,
        prev,
        head,
    }
    .text()
}

impl Calls {
    // No calls yet, of so many that are to come.
    fn new(alloc: Global, count: u32, rows: u32) -> Result<Calls, OutOfMemory> {
        let mut log = Vec::from_slice(alloc, b"CPl1")?;
        log.extend_from_slice(&EPOCH.to_be_bytes())?;
        log.extend_from_slice(&count.to_be_bytes())?;
        Ok(Calls {
            log,
            handins: Vec::new(alloc),
            tips: tips_of(alloc, rows)?,
        })
    }

    // Adds a get on the block, whose attestation the leaf signs. The blocks ascend.
    fn add(
        &mut self,
        alloc: Global,
        key: &PrivateKey,
        leaf: u32,
        block: u64,
    ) -> Result<(), OutOfMemory> {
        let before = tip_of(block);
        let nonce = u64::from(leaf);
        let text = entry_text(alloc, block, nonce)?;
        self.log.extend_from_slice(&block.to_be_bytes())?;
        self.log.extend_from_slice(&1u32.to_be_bytes())?;
        push_part(text.as_slice(), &mut self.log)?;
        let next = head(&before.head, text.as_slice());
        let store = digest(&key.public().bytes());
        let attestation = attested(store, block, nonce, before.head, next);
        push_signed(alloc, key, leaf, &attestation, &mut self.handins)?;
        let after = Tip {
            count: 2,
            head: next,
            ..before
        };
        self.tips.insert(block, after)?;
        Ok(())
    }

    /// So many gets on blocks that are spread over so many, signed by the first leaves.
    pub fn make(
        alloc: Global,
        key: &PrivateKey,
        count: u32,
        rows: u32,
    ) -> Result<Calls, OutOfMemory> {
        let stride = if count == 0 { 0 } else { rows / count };
        let mut calls = Calls::new(alloc, count, rows)?;
        for leaf in 0..count {
            calls.add(alloc, key, leaf, u64::from(leaf.wrapping_mul(stride)))?;
        }
        Ok(calls)
    }
}
