//! Guilt that the log shows.
ghost use Rattle.std.specs.Prelude.{◌≡◌, map, IfOk};
ghost use Rattle.std.specs.List.{AllByRecursion};
ghost use Rattle.cp_chain.specs.Rules.{first_of};
ghost use Rattle.cp_chain.specs.View.{fault_view, frame_view};
ghost use Rattle.cp_evidence.specs.Evidence.{evidence_text};
ghost use Rattle.cp_evidence.specs.AuditLaws.{LongPartsFit};
ghost use Rattle.cp_evidence.specs.Material.{frame_for};
ghost use Rattle.cp_evidence.specs.Verdict.{fault_in};
ghost use Rattle.cp_audit.specs.Given.{given_view};
ghost use Rattle.cp_audit.specs.LogParts.{StandInFrames, fault_evidence};
ghost use Rattle.cp_audit.specs.Parts.{part_view};
ghost use Rattle.cp_audit.specs.Rows.{Writes, WritesEvidence, illegal_found};

use crate::by_tables::fits;
use crate::given::GivenEpoch;
use crate::part::Part;
use cp_bytes::OutOfMemory;
use cp_chain::{Fault, first_fault_by_index};
use cp_evidence::write_k7;
use std::alloc::{AllocError, Global};

// The least block whose segment breaks a rule, with its first fault.
pub(crate) fn illegal(
    alloc: Global,
    o: &GivenEpoch,
    parts: &[Part],
) -> Result<Option<Vec<u8>>, OutOfMemory>
    requires { StandInFrames (given_view o.now) parts.now }
    ensures { Writes (illegal_found (given_view o.now) (map part_view parts.now)) result }
{
    for part in parts {
        if let Some(fault) = first_fault_by_index(alloc, &part.frame, &part.segment)? {
            let written = write_fault(alloc, o, part, fault)?;
            return Ok(Some(written));
        }
    }
    Ok(None)
}

// The evidence of a fault in a segment.
fn write_fault(
    alloc: Global,
    o: &GivenEpoch,
    part: &Part,
    fault: Fault,
) -> Result<Vec<u8>, OutOfMemory>
    ensures { WritesEvidence (fault_evidence o.now part.now fault) result }
{
    if !fits(o.table_before) || !fits(o.table) || !fits(o.families_text) {
        return Err(AllocError);
    }
    let mut out = Vec::new(alloc);
    write_k7(
        part.frame.block,
        u64::from(fault.rule.number()),
        fault.place,
        fault.other,
        &o.closing.envelope,
        &o.before.envelope(),
        o.table,
        o.table_before,
        o.families_text,
        part.bytes,
        &mut out,
    )?;
    Ok(out)
}
