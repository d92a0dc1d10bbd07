//! Guilt that the closings and the tables show.
ghost use Rattle.std.specs.Prelude.{◌≡◌, not, option_map, true};
ghost use Rattle.cp_evidence.specs.Evidence.Evidence.{K4, K5, K6};
ghost use Rattle.cp_evidence.specs.Material.{before_in, envelope_before, is_formed, is_formed_before, least_regressed, new_rows, old_rows};
ghost use Rattle.cp_evidence.specs.Verdict.{evidence_if, framing, link_is_wrong};
ghost use Rattle.cp_audit.specs.Given.{given_view};
ghost use Rattle.cp_audit.specs.Rows.{Writes, IsFormed, IsFormedBefore, bad_table_before_found, bad_table_found, regressed_found, wrong_link_found};
ghost use Rattle.cp_chain.specs.Segment.{PartFits};

use crate::frames::table_in;
use crate::given::GivenEpoch;
use crate::tables::{is_formed, is_formed_before, went_back};
use cp_bytes::OutOfMemory;
use cp_evidence::{write_k4, write_k5, write_k6};
use std::alloc::{AllocError, Global};

// A link that isn't to the closing before.
pub(crate) fn wrong_link(alloc: Global, o: &GivenEpoch) -> Result<Option<Vec<u8>>, OutOfMemory>
    ensures { Writes (wrong_link_found (given_view o.now)) result }
{
    if o.closing.closing.link == o.before.link() {
        return Ok(None);
    }
    let mut out = Vec::new(alloc);
    write_k5(&o.closing.envelope, &o.before.envelope(), &mut out)?;
    Ok(Some(out))
}

// Whether four bytes hold the number of these bytes.
pub(crate) fn fits(bytes: &[u8]) -> bool
    ensures { (result ≡ true) → PartFits bytes.now }
{
    bytes.len() as u64 <= 0xffff_ffff
}

// A table before that isn't well formed.
pub(crate) fn bad_table_before(
    alloc: Global,
    o: &GivenEpoch,
) -> Result<Option<Vec<u8>>, OutOfMemory>
    ensures { Writes (bad_table_before_found (given_view o.now)) result }
{
    if is_formed_before(o.table_before, &o.before) {
        return Ok(None);
    }
    if !fits(o.table_before) {
        return Err(AllocError);
    }
    let mut out = Vec::new(alloc);
    write_k4(&o.before.envelope(), o.table_before, &mut out)?;
    Ok(Some(out))
}

// A table that isn't well formed.
pub(crate) fn bad_table(alloc: Global, o: &GivenEpoch) -> Result<Option<Vec<u8>>, OutOfMemory>
    ensures { Writes (bad_table_found (given_view o.now)) result }
{
    if is_formed(o.table, &o.closing.closing) {
        return Ok(None);
    }
    if !fits(o.table) {
        return Err(AllocError);
    }
    let mut out = Vec::new(alloc);
    write_k4(&o.closing.envelope, o.table, &mut out)?;
    Ok(Some(out))
}

// A block that went back, where both tables are well formed.
pub(crate) fn regressed(alloc: Global, o: &GivenEpoch) -> Result<Option<Vec<u8>>, OutOfMemory>
    requires before { IsFormedBefore (given_view o.now) }
    requires after { IsFormed (given_view o.now) }
    ensures { Writes (regressed_found (given_view o.now)) result }
{
    let before = table_in(o.table_before);
    let after = table_in(o.table);
    let Some(block) = went_back(&before, &after) else {
        return Ok(None);
    };
    if !fits(o.table_before) || !fits(o.table) {
        return Err(AllocError);
    }
    let mut out = Vec::new(alloc);
    write_k6(
        block,
        &o.closing.envelope,
        &o.before.envelope(),
        o.table,
        o.table_before,
        &mut out,
    )?;
    Ok(Some(out))
}
