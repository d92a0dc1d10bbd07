//! An epoch to be audited.
use crate::audit::calls::{Calls, EPOCH, tips_of};
use crate::audit::signing::push_signed;
use cp_audit::Material;
use cp_bytes::{Cut, OutOfMemory, digest};
use cp_statements::{Closing, Envelope};
use cp_tips::build;
use lms_tree::{PrivateKey, PublicKey};
use std::alloc::Global;

// A families list without a row.
const FAMILIES: &[u8] = b"CPf1\0\0\0\0";

/// The material of an epoch, and what was handed in.
#[derive(Drop)]
pub struct Epoch {
    key: PublicKey,
    before: Vec<u8>,
    closing: Vec<u8>,
    table_before: Vec<u8>,
    table: Vec<u8>,
    log: Vec<u8>,
    handins: Vec<u8>,
}

// The closing of an epoch with this table and so many rows and entries, behind this link.
fn closing_of(
    key: &PrivateKey,
    epoch: u64,
    link: [u8; 32],
    table: &[u8],
    rows: u32,
    entries: u64,
) -> [u8; 156] {
    Closing {
        store: digest(&key.public().bytes()),
        epoch,
        link,
        families: digest(FAMILIES),
        table: digest(table),
        rows: u64::from(rows),
        entries,
    }
    .text()
}

impl Epoch {
    /// An epoch of so many gets between tables of so many rows, which are at least as many. The last
    /// two leaves sign the closings, and the first ones the attestations.
    pub fn new(
        alloc: Global,
        key: &PrivateKey,
        count: u32,
        rows: u32,
    ) -> Result<Epoch, OutOfMemory> {
        let entries = u64::from(rows);
        let after = entries.wrapping_add(u64::from(count));
        let table_before = build(alloc, &tips_of(alloc, rows)?)?;
        let calls = Calls::make(alloc, key, count, rows)?;
        let table = build(alloc, &calls.tips)?;
        let text = closing_of(key, 1, [0; 32], table_before.as_slice(), rows, entries);
        let mut before = Vec::new(alloc);
        let leaf = key.leaves().wrapping_sub(2);
        push_signed(alloc, key, leaf, &text, &mut before)?;
        let text = closing_of(key, EPOCH, digest(&text), table.as_slice(), rows, after);
        let mut closing = Vec::new(alloc);
        push_signed(alloc, key, leaf.wrapping_add(1), &text, &mut closing)?;
        let Calls { log, handins, .. } = calls;
        Ok(Epoch {
            key: key.public(),
            before,
            closing,
            table_before,
            table,
            log,
            handins,
        })
    }

    /// The material, as an audit takes it.
    pub fn material(&self) -> Material<'_> {
        Material {
            key: self.key,
            epoch: EPOCH,
            families: FAMILIES,
            before: self.before.as_slice(),
            closing: self.closing.as_slice(),
            table_before: self.table_before.as_slice(),
            table: self.table.as_slice(),
            log: self.log.as_slice(),
        }
    }

    /// The hand-ins.
    pub fn handins(&self) -> &[u8] {
        self.handins.as_slice()
    }

    /// The signed texts: the two closings, and so many hand-ins.
    pub fn signed(&self, alloc: Global, count: u32) -> Result<Vec<Envelope<'_>>, OutOfMemory> {
        let mut signed = Vec::new(alloc);
        if let Ok(before) = Envelope::read(self.before.as_slice()) {
            signed.push(before)?;
        }
        if let Ok(closing) = Envelope::read(self.closing.as_slice()) {
            signed.push(closing)?;
        }
        let mut cut = Cut::new(self.handins.as_slice());
        for _ in 0..count {
            if let Ok(attestation) = Envelope::take(&mut cut) {
                signed.push(attestation)?;
            }
        }
        Ok(signed)
    }
}
