//! Guilt: the first of the kinds in the order in which they are taken.
ghost use Rattle.cp_statements.specs.View.{envelope_view};
ghost use Rattle.cp_chain.specs.Rules.{first_of};
ghost use Rattle.cp_evidence.specs.Verdict as verdict;
ghost use Rattle.cp_evidence.specs.Verdict.{guilt_by_kind};
ghost use Rattle.cp_audit.specs.Given.{given_view};
ghost use Rattle.cp_audit.specs.LogParts.{AreLogParts, StandWhereRead};
ghost use Rattle.cp_audit.specs.Rows.{WritesFirst};
ghost use Rattle.std.specs.Prelude.{map};

use crate::alone::{no_statement, wrong_head};
use crate::beside::another_closing;
use crate::by_log::illegal;
use crate::by_tables::{bad_table, bad_table_before, regressed, wrong_link};
use crate::clash::{one_leaf, one_place};
use crate::given::GivenEpoch;
use crate::lost::lost;
use crate::part::Part;
use cp_bytes::OutOfMemory;
use cp_statements::Envelope;
use std::alloc::Global;

// The evidence of the first guilt that the epoch, the parts of its log and the hand-ins that verify
// show.
pub(crate) fn guilt(
    alloc: Global,
    o: &GivenEpoch,
    parts: &[Part],
    xs: &[Envelope],
) -> Result<Option<Vec<u8>>, OutOfMemory>
    requires { AreLogParts (given_view o.now) parts.now }
    ensures { WritesFirst (guilt_by_kind (given_view o.now) (map envelope_view xs.now)) result }
{
    if let Some(found) = by_one(alloc, o, xs)? {
        return Ok(Some(found));
    }
    if let Some(found) = by_two(alloc, o, xs)? {
        return Ok(Some(found));
    }
    if let Some(found) = by_tables(alloc, o)? {
        return Ok(Some(found));
    }
    by_log(alloc, o, parts, xs)
}

// What one hand-in shows.
fn by_one(alloc: Global, o: &GivenEpoch, xs: &[Envelope]) -> Result<Option<Vec<u8>>, OutOfMemory>
    ensures { WritesFirst (verdict.by_one (given_view o.now) (map envelope_view xs.now)) result }
{
    if let Some(found) = no_statement(alloc, &o.store, xs)? {
        return Ok(Some(found));
    }
    if let Some(found) = wrong_head(alloc, &o.store, xs)? {
        return Ok(Some(found));
    }
    another_closing(alloc, o, xs)
}

// What two texts show.
fn by_two(alloc: Global, o: &GivenEpoch, xs: &[Envelope]) -> Result<Option<Vec<u8>>, OutOfMemory>
    ensures { WritesFirst (verdict.by_two (given_view o.now) (map envelope_view xs.now)) result }
{
    if let Some(found) = one_leaf(alloc, o, xs)? {
        return Ok(Some(found));
    }
    one_place(alloc, &o.store, xs)
}

// What the closings and the tables show. Where the log was read, the tables were judged before.
fn by_tables(alloc: Global, o: &GivenEpoch) -> Result<Option<Vec<u8>>, OutOfMemory>
    requires { StandWhereRead (given_view o.now) }
    ensures { WritesFirst (verdict.by_tables (given_view o.now)) result }
{
    if let Some(found) = wrong_link(alloc, o)? {
        return Ok(Some(found));
    }
    if let Some(_parts) = &o.log {
        return Ok(None);
    }
    if let Some(found) = bad_table_before(alloc, o)? {
        return Ok(Some(found));
    }
    if let Some(found) = bad_table(alloc, o)? {
        return Ok(Some(found));
    }
    regressed(alloc, o)
}

// What the log shows.
fn by_log(
    alloc: Global,
    o: &GivenEpoch,
    parts: &[Part],
    xs: &[Envelope],
) -> Result<Option<Vec<u8>>, OutOfMemory>
    requires { AreLogParts (given_view o.now) parts.now }
    ensures { WritesFirst (verdict.by_log (given_view o.now) (map envelope_view xs.now)) result }
{
    if let Some(found) = illegal(alloc, o, parts)? {
        return Ok(Some(found));
    }
    lost(alloc, o, parts, xs)
}
