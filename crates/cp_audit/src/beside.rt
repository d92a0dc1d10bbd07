//! Guilt that one hand-in shows beside the given closings.
ghost use Rattle.std.specs.Prelude.{◌≡◌, map, option_map};
ghost use Rattle.sha2.specs.Sha256.{sha256};
ghost use Rattle.cp_statements.specs.View.{envelope_view};
ghost use Rattle.cp_chain.specs.Rules.{first_of};
ghost use Rattle.cp_evidence.specs.Evidence.Evidence.{K3};
ghost use Rattle.cp_evidence.specs.Verdict.{is_other_closing, other_closing};
ghost use Rattle.cp_audit.specs.Given.{given_view};
ghost use Rattle.cp_evidence.specs.View.{signed_closing_view};
ghost use Rattle.cp_audit.specs.Rows.{Writes, another_closing_found, beside_given, is_another};

use crate::given::GivenEpoch;
use cp_bytes::OutOfMemory;
use cp_evidence::{Before, SignedClosing, Store, write_k3};
use cp_statements::Envelope;
use std::alloc::Global;

// The first hand-in that is another closing of the given epoch or of the one before, after the
// given one.
pub(crate) fn another_closing(
    alloc: Global,
    o: &GivenEpoch,
    xs: &[Envelope],
) -> Result<Option<Vec<u8>>, OutOfMemory>
    ensures { Writes (another_closing_found (given_view o.now) (map envelope_view xs.now)) result }
{
    for x in xs {
        if let Some(given) = closing_beside(o, x) {
            let mut out = Vec::new(alloc);
            write_k3(&given, x, &mut out)?;
            return Ok(Some(out));
        }
    }
    Ok(None)
}

// The first given closing that the hand-in is another one of.
fn closing_beside<'a>(o: &GivenEpoch<'a>, x: &Envelope) -> Option<Envelope<'a>>
    ensures { beside_given x.now result ≡ other_closing (given_view o.now) (envelope_view x.now) }
{
    if let Before::Closing(before) = &o.before {
        if is_other_closing(&o.store, x, before) {
            return Some(before.envelope);
        }
    }
    if is_other_closing(&o.store, x, &o.closing) {
        return Some(o.closing.envelope);
    }
    None
}

// Whether the hand-in is a closing of the given one's epoch with another text.
fn is_other_closing(store: &Store, x: &Envelope, given: &SignedClosing) -> bool
    ensures { result ≡ is_another store.now x.now given.now }
{
    match store.closing(x.text) {
        Some(c) => c.epoch == given.closing.epoch && x.text != given.envelope.text,
        None => false,
    }
}
