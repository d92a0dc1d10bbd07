//! The conditions of the kinds that speak of envelopes alone.
ghost use Rattle.std.specs.Prelude.{◌≡◌, ◌≤◌, ◌==◌, length};
ghost use Rattle.cp_statements.specs.View.{envelope_view};
ghost use Rattle.lms_tree.specs.Verifying.{leaf_of};
ghost use Rattle.cp_evidence.specs.Conditions.{k1_tried, k2_tried, k3_tried, k9_tried, k10_tried};
ghost use Rattle.cp_evidence.specs.View.{two_view};

use crate::check::check;
use cp_evidence::{Store, Two, head_fits};
use cp_statements::{Envelope, Kind};

// Kind 1: two attestations of one position of a block.
#[tactic(auto, unfolding(cp_evidence::specs::Conditions::k1_tried))]
pub(crate) fn try_k1(store: &Store, two: &Two) -> Result<(), u8>
    ensures { result ≡ k1_tried store.now.key (two_view two.now) }
{
    check(1, store.signed(&two.x))?;
    check(2, store.signed(&two.y))?;
    let a = store.attestation(two.x.text).ok_or(3)?;
    let b = store.attestation(two.y.text).ok_or(4)?;
    check(5, a.block == b.block && a.position == b.position)?;
    check(6, two.x.text != two.y.text)
}

// Kind 2: two texts under one leaf.
#[tactic(auto, unfolding(cp_evidence::specs::Conditions::k2_tried))]
pub(crate) fn try_k2(store: &Store, two: &Two) -> Result<(), u8>
    ensures { result ≡ k2_tried store.now.key (two_view two.now) }
{
    check(1, store.signed(&two.x))?;
    check(2, store.signed(&two.y))?;
    check(3, same_leaf(&two.x, &two.y))?;
    check(4, two.x.text != two.y.text)
}

// Kind 3: two closings of one epoch.
#[tactic(auto, unfolding(cp_evidence::specs::Conditions::k3_tried))]
pub(crate) fn try_k3(store: &Store, two: &Two) -> Result<(), u8>
    ensures { result ≡ k3_tried store.now.key (two_view two.now) }
{
    check(1, store.signed(&two.x))?;
    check(2, store.signed(&two.y))?;
    let c = store.closing(two.x.text).ok_or(3)?;
    let d = store.closing(two.y.text).ok_or(4)?;
    check(5, c.epoch == d.epoch)?;
    check(6, two.x.text != two.y.text)
}

// Kind 9: a get attestation with a wrong head.
#[tactic(auto, unfolding(cp_evidence::specs::Conditions::k9_tried))]
pub(crate) fn try_k9(store: &Store, x: &Envelope) -> Result<(), u8>
    ensures { result ≡ k9_tried store.now.key (envelope_view x.now) }
{
    check(1, store.signed(x))?;
    let a = match store.attestation(x.text) {
        Some(a) if a.kind == Kind::Get => a,
        _ => return Err(2),
    };
    check(3, !head_fits(&a))
}

// Kind 10: a signed text that is no statement of the store.
#[tactic(auto, unfolding(cp_evidence::specs::Conditions::k10_tried))]
pub(crate) fn try_k10(store: &Store, x: &Envelope) -> Result<(), u8>
    ensures { result ≡ k10_tried store.now.key (envelope_view x.now) }
{
    check(1, store.signed(x))?;
    check(2, !store.is_statement(x.text))
}

// Whether two signatures, each long enough to name a leaf, name the same one.
fn same_leaf(x: &Envelope, y: &Envelope) -> bool
    requires x { 4 ≤ length x.now.signature.now }
    requires y { 4 ≤ length y.now.signature.now }
    ensures { result ≡ (leaf_of x.now.signature.now == leaf_of y.now.signature.now) }
{
    match (x.leaf(), y.leaf()) {
        (Some(x_leaf), Some(y_leaf)) => x_leaf == y_leaf,
        _ => false,
    }
}
