//! What was handed in.
ghost use Rattle.std.specs.Prelude.{◌≡◌, [], ◌∷◌, ◌++◌, if◌then◌else◌, OnOk};
ghost use Rattle.cp_statements.specs.View.{envelope_view};
ghost use Rattle.cp_evidence.specs.Conditions.{signed_by};
ghost use Rattle.cp_audit.specs.HandIns.{Collects, AddsSigned};

use crate::AuditRefusal;
use cp_bytes::{Cut, OutOfMemory};
use cp_evidence::Store;
use cp_statements::Envelope;
use std::alloc::Global;

// The hand-ins: how many there are, and those that verify, in order.
#[derive(Drop)]
pub(crate) struct HandIns<'a> {
    pub(crate) count: u64,
    pub(crate) verified: Vec<Envelope<'a>>,
}

// The hand-ins that the bytes are, each of which is verified once.
pub(crate) fn collect<'a>(
    alloc: Global,
    store: &Store,
    bytes: &'a [u8],
) -> Result<HandIns<'a>, AuditRefusal>
    ensures { Collects store.now.key bytes.now result }
{
    let mut cut = Cut::new(bytes);
    let mut count = 0;
    let mut verified = Vec::new(alloc);
    while !cut.rest().is_empty() {
        let x = match Envelope::take(&mut cut) {
            Ok(x) => x,
            Err(short) => return Err(AuditRefusal::Malformed { at: short.at }),
        };
        if keep(store, x, &mut verified).is_err() {
            return Err(AuditRefusal::OutOfMemory);
        }
        count += 1;
    }
    Ok(HandIns { count, verified })
}

// Adds the hand-in to those that verify, where it does.
fn keep<'a>(
    store: &Store,
    x: Envelope<'a>,
    verified: &mut Vec<Envelope<'a>>,
) -> Result<(), OutOfMemory>
    ensures { AddsSigned store.now.key x.entry verified.old verified.new result }
{
    if store.signed(&x) {
        verified.push(x)?;
    }
    Ok(())
}
