//! The audit of an epoch.
ghost use Rattle.std.specs.Prelude.{◌≡◌, ◌-◌, ◌<◌, ◌≤◌, ◌^◌, map, length, sum_by, count_by};
ghost use Rattle.cp_statements.specs.View.{envelope_view};
ghost use Rattle.cp_bytes.specs.Fields.{IsBytes};
ghost use Rattle.cp_evidence.specs.AuditLaws.{IsMaterial, evidence_limit};
ghost use Rattle.cp_evidence.specs.Audited.{audited};
ghost use Rattle.cp_audit.specs.Counts.{is_of_epoch};
ghost use Rattle.cp_audit.specs.Given.{given_view};
ghost use Rattle.cp_audit.specs.Parts.{part_view};
ghost use Rattle.cp_audit.specs.Verdicts.{GuiltyConvicts, GuiltyWithin, IsAnswer, clean_counts};
ghost use Rattle.cp_audit.specs.View.{material_view};
ghost use Rattle.cp_audit.specs.declared.verdict.Verdict.TheVariants.{Clean};

use crate::counts::{entries, handed};
use crate::given::{GivenEpoch, given};
use crate::guilt::guilt;
use crate::hand_ins::{HandIns, collect};
use crate::part::Part;
use crate::{AuditRefusal, Material, Verdict};
use cp_bytes::Bytes;
use std::alloc::Global;

/// The verdict on a closed epoch's material and on what clients handed in, a function of these
/// bytes alone (this project's own). The hand-ins are envelopes, each its text and its signature
/// with a length of four bytes, big endian, before each, one after another to the end.
///
/// In order:
///
/// 1. `NotGiven` names the first part of the material that isn't given: the families list; the
///    closing before; the closing, which names the list's digest; the table before; the table; and,
///    only where both tables are well formed for their closings and no block went back, the log's
///    text, and the least block at which the log fails its tables.
/// 2. `Malformed` has the offset of the first byte of the hand-ins that doesn't fit.
/// 3. `OutOfMemory`, also where the evidence would need a part of 2^32 bytes or more.
///
/// A hand-in that doesn't verify is put aside. The store is guilty of the first of these that is
/// found:
///
/// 1. kind 10: the first hand-in that is no statement of the store;
/// 2. kind 9: the first get attestation, of any epoch, with a wrong head;
/// 3. kind 3: the first other closing of the epoch or of the one before, after the given one;
/// 4. kind 2: one leaf with two texts, among the given closings and the hand-ins: the least later
///    member, then the least earlier one;
/// 5. kind 1: likewise one position of a block with two texts, among the attestations;
/// 6. kind 5: a link that isn't to the closing before;
/// 7. kind 4: the table before that isn't well formed, else the table;
/// 8. kind 6: the least block that went back;
/// 9. kind 7: the least block with an illegal segment, and its first fault;
/// 10. kind 8: the first attestation of the epoch that doesn't stand in its block's segment; no
///     text stands beside one that is outside the counts.
///
/// The evidence's bytes convict the store. They are at most 64 more than twice those of the
/// closings and the hand-ins, and those of both tables, the families list and the log, together.
/// Where nothing is found, the verdict is clean, with the number of the log's texts, of the
/// hand-ins that verify as attestations of the epoch, and of all others.
pub fn audit(alloc: Global, material: &Material, handins: &[u8]) -> Result<Verdict, AuditRefusal>
    ensures verdict { IsAnswer (audited (material_view material.now) handins.now) result }
    ensures convicts { GuiltyConvicts material.now.key result }
    ensures is_short { GuiltyWithin
        (evidence_limit (material_view material.now) handins.now) result }
{
    is_material(material);
    let o = match given(alloc, material) {
        Ok(o) => o,
        Err(refusal) => return Err(refusal),
    };
    let found = match collect(alloc, &o.store, handins) {
        Ok(found) => found,
        Err(refusal) => return Err(refusal),
    };
    let parts = o.parts();
    match guilt(alloc, &o, parts, found.verified.as_slice()) {
        Ok(Some(evidence)) => Ok(Verdict::Guilty {
            evidence: Bytes::from_vec(evidence),
        }),
        Ok(None) => Ok(clean(&o, parts, &found)),
        Err(_) => Err(AuditRefusal::OutOfMemory),
    }
}

// Each part of the material is bytes, which a struct's type doesn't say of the slices in it. It
// does nothing.
fn is_material(m: &Material)
    ensures { IsMaterial (material_view m.now) }
{
    is_bytes(m.before);
    is_bytes(m.closing);
    is_bytes(m.table_before);
    is_bytes(m.table);
    is_bytes(m.log);
}

// Each item of a slice of bytes is one. It does nothing.
fn is_bytes(bytes: &[u8])
    ensures { IsBytes bytes.now }
{}

// The counts of an epoch that is clean.
fn clean(o: &GivenEpoch, parts: &[Part], found: &HandIns) -> Verdict
    requires few { length parts.now < 2 ^ 32 }
    requires all { length found.now.verified.items ≤ found.now.count }
    ensures { result ≡ clean_counts (given_view o.now) parts.now found.now }
{
    let handed = handed(o, found.verified.as_slice());
    Verdict::Clean {
        entries: entries(parts),
        handed,
        aside: found.count - handed,
    }
}
