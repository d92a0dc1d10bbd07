//! Guilt that one hand-in shows alone.
ghost use Rattle.std.specs.Prelude.{◌≡◌, map, not, option_map};
ghost use Rattle.std.specs.List.{find};
ghost use Rattle.sha2.specs.Sha256.{sha256};
ghost use Rattle.cp_statements.specs.View.{envelope_view};
ghost use Rattle.cp_evidence.specs.Conditions.{is_statement};
ghost use Rattle.cp_evidence.specs.Evidence.Evidence.{K9, K10};
ghost use Rattle.cp_evidence.specs.Verdict.{has_wrong_head};
ghost use Rattle.cp_audit.specs.Rows.{Writes, no_statement_found, wrong_head_found};

use cp_bytes::OutOfMemory;
use cp_evidence::{Store, head_fits, write_k9, write_k10};
use cp_statements::{Envelope, Kind};
use std::alloc::Global;

// The first text that is no statement of the store.
pub(crate) fn no_statement(
    alloc: Global,
    store: &Store,
    xs: &[Envelope],
) -> Result<Option<Vec<u8>>, OutOfMemory>
    ensures { Writes (no_statement_found (sha256 store.now.key) (map envelope_view xs.now)) result }
{
    let Some(x) = first_no_statement(store, xs) else {
        return Ok(None);
    };
    let mut out = Vec::new(alloc);
    write_k10(&x, &mut out)?;
    Ok(Some(out))
}

fn first_no_statement<'a>(store: &Store, xs: &[Envelope<'a>]) -> Option<Envelope<'a>>
    ensures { result ≡ find (λ x. not (is_statement (sha256 store.now.key) x.text.now)) xs.now }
{
    xs.iter().copied().find(|x| !store.is_statement(x.text))
}

// The first get attestation, of any epoch, whose head isn't the one after its entry.
pub(crate) fn wrong_head(
    alloc: Global,
    store: &Store,
    xs: &[Envelope],
) -> Result<Option<Vec<u8>>, OutOfMemory>
    ensures { Writes (wrong_head_found (sha256 store.now.key) (map envelope_view xs.now)) result }
{
    let Some(x) = first_wrong_head(store, xs) else {
        return Ok(None);
    };
    let mut out = Vec::new(alloc);
    write_k9(&x, &mut out)?;
    Ok(Some(out))
}

fn first_wrong_head<'a>(store: &Store, xs: &[Envelope<'a>]) -> Option<Envelope<'a>>
    ensures { result ≡ find (λ x. has_wrong_head (sha256 store.now.key) (envelope_view x)) xs.now }
{
    xs.iter().copied().find(|x| has_wrong_head(store, x))
}

// Whether it is a get attestation with a wrong head.
fn has_wrong_head(store: &Store, x: &Envelope) -> bool
    ensures { result ≡ has_wrong_head (sha256 store.now.key) (envelope_view x.now) }
{
    match store.attestation(x.text) {
        Some(a) if a.kind == Kind::Get => !head_fits(&a),
        _ => false,
    }
}
