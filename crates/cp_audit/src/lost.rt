//! Attestations that don't stand in the log.
ghost use Rattle.std.specs.Prelude.{◌≡◌, [], false, map, option_map, IfOk};
ghost use Rattle.std.specs.Option.{option_map_or};
ghost use Rattle.std.specs.List.{find};
ghost use Rattle.cp_statements.specs.View.{attestation_view, envelope_view};
ghost use Rattle.cp_chain.specs.Segment.{segment_text};
ghost use Rattle.cp_chain.specs.Standing.{stands};
ghost use Rattle.cp_evidence.specs.AuditLaws.{LongPartsFit};
ghost use Rattle.cp_evidence.specs.Conditions.{attestation_by};
ghost use Rattle.cp_evidence.specs.Evidence.{evidence_text};
ghost use Rattle.cp_evidence.specs.Material.{frame_for, segment_for, store_id};
ghost use Rattle.cp_evidence.specs.Verdict.{is_lost, lost_evidence, segment_beside};
ghost use Rattle.cp_audit.specs.Given.{given_view};
ghost use Rattle.cp_audit.specs.LogParts.{AreLogParts, stands_in_log, texts_beside};
ghost use Rattle.cp_audit.specs.Rows.{Writes, WritesEvidence, lost_found};

use crate::by_tables::fits;
use crate::given::GivenEpoch;
use crate::lookup::part_at;
use crate::part::Part;
use cp_bytes::OutOfMemory;
use cp_evidence::{is_outside, write_k8};
use cp_statements::{Attestation, Envelope};
use std::alloc::{AllocError, Global};

// The first attestation of the epoch that doesn't stand in its block's segment.
pub(crate) fn lost(
    alloc: Global,
    o: &GivenEpoch,
    parts: &[Part],
    xs: &[Envelope],
) -> Result<Option<Vec<u8>>, OutOfMemory>
    requires { AreLogParts (given_view o.now) parts.now }
    ensures { Writes (lost_found (given_view o.now) (map envelope_view xs.now)) result }
{
    for x in xs {
        if is_lost(o, parts, x) {
            let written = write_lost(alloc, o, parts, x)?;
            return Ok(Some(written));
        }
    }
    Ok(None)
}

// Whether it is an attestation of the epoch that doesn't stand in its block's segment.
fn is_lost(o: &GivenEpoch, parts: &[Part], x: &Envelope) -> bool
    requires { AreLogParts (given_view o.now) parts.now }
    ensures { result ≡ is_lost (given_view o.now) (envelope_view x.now) }
{
    match o.store.attestation(x.text) {
        Some(a) => a.epoch == o.epoch && !stands(o, parts, &a),
        None => false,
    }
}

// Whether the attestation stands in its block's segment; it doesn't where there is none.
fn stands(o: &GivenEpoch, parts: &[Part], a: &Attestation) -> bool
    requires { AreLogParts (given_view o.now) parts.now }
    ensures { result ≡ stands_in_log (given_view o.now) (attestation_view a.now) }
{
    match part_at(parts, a.block) {
        Some(part) => part.stands(a),
        None => false,
    }
}

// The evidence of an attestation that is lost.
fn write_lost(
    alloc: Global,
    o: &GivenEpoch,
    parts: &[Part],
    x: &Envelope,
) -> Result<Vec<u8>, OutOfMemory>
    requires { AreLogParts (given_view o.now) parts.now }
    ensures { WritesEvidence (lost_evidence (given_view o.now) (envelope_view x.now)) result }
{
    if !fits(o.table_before) || !fits(o.table) {
        return Err(AllocError);
    }
    let attestation = Envelope {
        text: x.text,
        signature: x.signature,
    };
    let segment = segment_beside(o, parts, x);
    let mut out = Vec::new(alloc);
    write_k8(
        &o.closing.envelope,
        &o.before.envelope(),
        o.table,
        o.table_before,
        &attestation,
        segment,
        &mut out,
    )?;
    Ok(out)
}

// The bytes of the segment that stands beside an attestation in evidence: that of its block, and
// one without texts where there is none or the attestation is outside the counts.
fn segment_beside<'a>(o: &GivenEpoch, parts: &[Part<'a>], x: &Envelope) -> &'a [u8]
    requires { AreLogParts (given_view o.now) parts.now }
    ensures { result.now ≡ segment_text (texts_beside (given_view o.now) x.now.text.now) }
{
    let Some(a) = o.store.attestation(x.text) else {
        return no_texts();
    };
    let Some(part) = part_at(parts, a.block) else {
        return no_texts();
    };
    if is_outside(&part.frame, &a) {
        return no_texts();
    }
    part.bytes
}

// The bytes of a segment without texts.
#[tactic(auto, unfolding(cp_chain::specs::Segment::segment_text))]
fn no_texts<'a>() -> &'a [u8]
    ensures { result.now ≡ segment_text [] }
{
    &[0, 0, 0, 0]
}
