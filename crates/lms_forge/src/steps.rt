//! The chain whose digit is below the revealed one, and its steps (RFC 8554, 4.3 and 4.6).
ghost use Rattle.std.specs.Prelude.{◌≡◌, ℕ, ◌+◌, ◌-◌, ◌<◌, ◌≤◌, slice_index};
ghost use Rattle.lms_ots.specs.Parameters.{chains_of, max_digit, width_of};
ghost use Rattle.lms_ots.specs.Ots.{chain, coef, step_text};
ghost use Rattle.lms_forge.specs.Difference.{last_difference, least_below};
ghost use Rattle.lms_forge.specs.Revealed.{own_value};

use crate::texts::step_unless_same;
use cp_bytes::digest;
use lms_ots::{OtsType, chain, coef, max_digit, step_text};
use lms_tree::PrivateKey;

// The most chains that a type has.
pub(crate) const MAX_CHAINS: usize = 265;

// The digits of `s`, one for each chain.
#[tactic(auto, using(lms_ots::proofs::Types::types))]
pub(crate) fn digits_of(t: OtsType, s: &[u8; 34]) -> [u8; MAX_CHAINS]
    ensures { (i : ℕ) → i < chains_of t → slice_index result i ≡ coef s.now i (width_of t) }
{
    let mut digits = [0; MAX_CHAINS];
    'digits: for i in 0..t.p() {
        digits[i as usize] = coef(s, i, t.w());
    }
    digits
}

// The least chain with a digit below the revealed one, or the number of chains.
pub(crate) fn least_below(count: u32, shown: &[u8; MAX_CHAINS], revealed: &[u8; MAX_CHAINS]) -> u32
    requires { count ≤ 265 }
    ensures { result ≡ least_below (slice_index shown.now) (slice_index revealed.now) count }
{
    for i in 0..count {
        if shown[i as usize] < revealed[i as usize] {
            return i;
        }
    }
    count
}

// The texts of the highest step of chain `i`, down to the step `from`, whose texts differ, where the
// signature shows `value` before the step `digit`.
pub(crate) fn twin_steps(
    key: &PrivateKey,
    leaf: u32,
    i: u16,
    digit: u8,
    value: [u8; 32],
    from: u8,
) -> Option<([u8; 55], [u8; 55])>
    requires below { digit ≤ from }
    requires most { from ≤ max_digit (width_of key.now.ots) }
    ensures { result ≡ last_difference
        (λ n. step_text key.now.id leaf i (from + n) (own_value key.now leaf i (from + n)))
        (λ n. step_text key.now.id leaf i (from + n) (chain key.now.id leaf i digit (from + n) value))
        (max_digit (width_of key.now.ots) - from) }
{
    let id = key.id();
    let mut own = key.chain_value(leaf, i, from);
    let mut shown = chain(&id, leaf, i, digit, from, value);
    let mut seen = None;
    'steps: for j in from..max_digit(key.ots()) {
        let own_text = step_text(&id, leaf, i, j, &own);
        let shown_text = step_text(&id, leaf, i, j, &shown);
        own = digest(&own_text);
        shown = digest(&shown_text);
        seen = step_unless_same(own_text, shown_text, seen);
    }
    seen
}
