//! The closing before an epoch's closing.
ghost use Rattle.std.specs.Prelude.{◌≡◌, ◌+◌, ◌==◌, option_map, IfSome};
ghost use Rattle.cp_statements.specs.View.{closing_view, envelope_view};
ghost use Rattle.cp_evidence.specs.Conditions.{before_of, closing_before, k5_tried};
ghost use Rattle.cp_evidence.specs.View.{before_view, signed_closing_view, two_view};
ghost use Rattle.cp_judge.specs.View.{before_closing, LinksAs};

use crate::check::check;
use cp_evidence::{Before, SignedClosing, Store, Two};
use cp_statements::{Closing, Envelope};

// The closing of the epoch before, where this envelope is it and verifies.
fn closing_before<'a>(
    store: &Store,
    closing: &Closing,
    y: &Envelope<'a>,
) -> Option<SignedClosing<'a>>
    ensures value { option_map (λ c. closing_view c.closing) result
        ≡ closing_before store.now.key (closing_view closing.now) (envelope_view y.now) }
    ensures envelope { IfSome result (λ c. envelope_view c.envelope ≡ envelope_view y.now) }
{
    if !store.signed(y) {
        return None;
    }
    let before = store.closing(y.text)?;
    if is_next(before.epoch, closing.epoch) {
        Some(SignedClosing {
            envelope: *y,
            closing: before,
        })
    } else {
        None
    }
}

// What stands before the closing, where the envelope fits: in epoch 1 both of its parts are empty,
// and otherwise it is the closing of the epoch before and verifies.
pub(crate) fn before<'a>(store: &Store, closing: &Closing, y: &Envelope<'a>) -> Option<Before<'a>>
    ensures value { option_map before_closing result
        ≡ before_of store.now.key (closing_view closing.now) (envelope_view y.now) }
    ensures link { IfSome result (LinksAs (envelope_view y.now)) }
{
    if closing.epoch == 1 {
        return if y.text.is_empty() && y.signature.is_empty() {
            Some(Before::Nothing)
        } else {
            None
        };
    }
    Some(Before::Closing(closing_before(store, closing, y)?))
}

// Kind 5: a closing whose link isn't to the closing before.
#[tactic(auto, unfolding(cp_evidence::specs::Conditions::k5_tried))]
pub(crate) fn try_k5(store: &Store, two: &Two) -> Result<(), u8>
    ensures { result ≡ k5_tried store.now.key (two_view two.now) }
{
    check(1, store.signed(&two.x))?;
    let closing = store.closing(two.x.text).ok_or(2)?;
    let before = before(store, &closing, &two.y).ok_or(3)?;
    check(4, closing.link != before.link())
}

// Whether the epoch is the one after the epoch before.
fn is_next(before: u64, epoch: u64) -> bool
    ensures { result ≡ (before + 1 == epoch) }
{
    before < epoch && epoch - before == 1
}
