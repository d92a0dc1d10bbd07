//! The conditions of the kinds that show tables and segments.
ghost use Rattle.std.specs.Prelude.{◌≡◌, [], Some};
ghost use Rattle.cp_statements.specs.View.{closing_view};
ghost use Rattle.cp_evidence.specs.Conditions.{families_for, k4_tried, k6_tried, k7_tried, k8_tried};
ghost use Rattle.cp_evidence.specs.View.{closing_table_view, went_back_view, broken_rule_view, lost_view};

use crate::check::check;
use crate::framed::{Framed, rows_for};
use cp_bytes::digest;
use cp_chain::{breaks, reaches, stands};
use cp_evidence::{BrokenRule, ClosingTable, Lost, Store, WentBack, is_outside};
use cp_families::Families;
use cp_statements::Closing;

// Kind 4: a table that isn't well formed for its closing.
#[tactic(auto, unfolding(cp_evidence::specs::Conditions::k4_tried))]
pub(crate) fn try_k4(store: &Store, e: &ClosingTable) -> Result<(), u8>
    ensures { result ≡ k4_tried store.now.key (closing_table_view e.now) }
{
    check(1, store.signed(&e.closing))?;
    let closing = store.closing(e.closing.text).ok_or(2)?;
    check(3, digest(e.table) == closing.table)?;
    check(4, rows_for(e.table, &closing).is_none())
}

// Kind 6: a block that went back.
#[tactic(auto, unfolding(cp_evidence::specs::Conditions::k6_tried))]
pub(crate) fn try_k6(store: &Store, e: &WentBack) -> Result<(), u8>
    ensures { result ≡ k6_tried store.now.key (went_back_view e.now) }
{
    let framed = Framed::of(store, &e.given)?;
    check(8, framed.went_back(e.block))
}

// Kind 7: a segment that breaks a rule.
#[tactic(auto, unfolding(cp_evidence::specs::Conditions::k7_tried))]
pub(crate) fn try_k7(store: &Store, e: &BrokenRule) -> Result<(), u8>
    ensures { result ≡ k7_tried store.now.key (broken_rule_view e.now) }
{
    let framed = Framed::of(store, &e.given)?;
    let families = families_for(e.families, &framed.closing).ok_or(8)?;
    let frame = framed.frame(store, families, e.block);
    check(9, reaches(&frame, &e.segment))?;
    check(10, breaks(&frame, &e.segment, e.fault))
}

// Kind 8: an attestation that is outside the counts of its block, or doesn't stand in its segment.
#[tactic(auto, unfolding(cp_evidence::specs::Conditions::k8_tried))]
pub(crate) fn try_k8(store: &Store, e: &Lost) -> Result<(), u8>
    ensures { result ≡ k8_tried store.now.key (lost_view e.now) }
{
    let framed = Framed::of(store, &e.given)?;
    check(8, store.signed(&e.attestation))?;
    let a = match store.attestation(e.attestation.text) {
        Some(a) if a.epoch == framed.closing.epoch => a,
        _ => return Err(9),
    };
    // No condition looks at the families list.
    let Some(families) = no_families() else {
        return Err(10);
    };
    let frame = framed.frame(store, families, a.block);
    check(
        10,
        is_outside(&frame, &a) || reaches(&frame, &e.segment) && !stands(&frame, &e.segment, &a),
    )
}

// The families list that the closing names.
fn families_for<'a>(bytes: &'a [u8], closing: &Closing) -> Option<Families<'a>>
    ensures { result ≡ families_for bytes.now (closing_view closing.now) }
{
    if digest(bytes) != closing.families {
        return None;
    }
    Families::read(bytes).ok()
}

// The families list without a row.
fn no_families() -> Option<Families<'static>>
    ensures { result ≡ Some [] }
{
    Families::read(b"CPf1\0\0\0\0").ok()
}
