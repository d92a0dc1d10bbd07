//! The signed closings of an epoch's material.
ghost use Rattle.std.specs.Prelude.{◌≡◌, ◌+◌, ◌==◌, option_map};
ghost use Rattle.cp_statements.specs.View.{envelope_view};
ghost use Rattle.cp_evidence.specs.Material.{closing_before_in, closing_in, signed_closing};
ghost use Rattle.cp_evidence.specs.View.{before_view};
ghost use Rattle.cp_audit.specs.View.{signed_view};

use cp_evidence::{Before, SignedClosing, Store};
use cp_statements::Envelope;

// The closing in the envelope, where it verifies and is of the epoch that comes `back` before.
fn signed_closing<'a>(
    store: &Store,
    back: u64,
    epoch: u64,
    x: Envelope<'a>,
) -> Option<SignedClosing<'a>>
    ensures { signed_view result ≡ signed_closing store.now.key back epoch (envelope_view x.entry) }
{
    if !store.signed(&x) {
        return None;
    }
    let closing = store.closing(x.text)?;
    if is_before(closing.epoch, back, epoch) {
        Some(SignedClosing {
            envelope: x,
            closing,
        })
    } else {
        None
    }
}

// The closing in the envelope that the bytes spell, where it verifies and is of the epoch that
// comes `back` before.
pub(crate) fn closing_in<'a>(
    store: &Store,
    back: u64,
    epoch: u64,
    bytes: &'a [u8],
) -> Option<SignedClosing<'a>>
    ensures { signed_view result ≡ closing_in store.now.key back epoch bytes.now }
{
    match Envelope::read(bytes) {
        Ok(x) => signed_closing(store, back, epoch, x),
        Err(_) => None,
    }
}

// The closing before the epoch's, where it is given; in epoch 1 there are no bytes.
pub(crate) fn closing_before<'a>(store: &Store, epoch: u64, bytes: &'a [u8]) -> Option<Before<'a>>
    ensures { option_map before_view result ≡ closing_before_in store.now.key epoch bytes.now }
{
    if epoch == 1 {
        return if bytes.is_empty() {
            Some(Before::Nothing)
        } else {
            None
        };
    }
    Some(Before::Closing(closing_in(store, 1, epoch, bytes)?))
}

// Whether the epoch of a closing comes `back` before the epoch.
fn is_before(closed: u64, back: u64, epoch: u64) -> bool
    ensures { result ≡ (closed + back == epoch) }
{
    closed <= epoch && epoch - closed == back
}
