//! The texts that are hashed to a leaf's one-time public key, by the key (RFC 8554, 4.3) and by the
//! signature (4.6).
ghost use Rattle.std.specs.Prelude.{◌≡◌, ◌+◌, ◌*◌, ◌<◌, ◌≤◌, length, IfOk};
ghost use Rattle.lms_ots.specs.Parameters.{chains_of, max_digit, sig_len_of, width_of};
ghost use Rattle.lms_ots.specs.Ots.{candidate_ends, chain, coef, key_text, y_at};
ghost use Rattle.lms_forge.specs.Witness.{own_key_text};

use crate::OutOfMemory;
use cp_bytes::put;
use lms_ots::{D_PBLC, OtsType, chain, coef, max_digit, tagged, y_at};
use lms_tree::PrivateKey;
use std::alloc::Global;

// Writes the key's own text.
#[tactic(auto, using(lms_ots::proofs::Types::types), unfolding(lms_ots::specs::Signing::public_ends, crate::specs::Witness::own_key_text))]
fn put_own(key: &PrivateKey, leaf: u32, out: &mut [u8])
    requires { length out.old ≡ 22 + 32 * chains_of key.now.ots }
    ensures { out.new ≡ own_key_text key.now leaf }
{
    let t = key.ots();
    put(out, 0, &tagged(&key.id(), leaf, D_PBLC));
    'chains: for i in 0..t.p() {
        let end = key.chain_value(leaf, i as u16, max_digit(t));
        put(out, 22 + 32 * i as usize, &end);
    }
}

// The key's own text.
pub(crate) fn own_key_text(
    alloc: Global,
    key: &PrivateKey,
    leaf: u32,
) -> Result<Vec<u8>, OutOfMemory>
    ensures { IfOk result (λ text. text.items ≡ own_key_text key.now leaf) }
{
    let mut out = vec![in alloc; 0u8; 22 + 32 * key.ots().p() as usize]?;
    put_own(key, leaf, out.as_mut_slice());
    Ok(out)
}

// The end of chain `i`, reached from the one-time signature's value.
#[tactic(auto, using(lms_ots::proofs::Types::types))]
fn shown_end(t: OtsType, id: &[u8; 16], leaf: u32, i: u32, s: &[u8; 34], sig: &[u8]) -> [u8; 32]
    requires long { length sig.now ≡ sig_len_of t }
    requires within { i < chains_of t }
    ensures { result ≡ chain id.now leaf i
        (coef s.now i (width_of t)) (max_digit (width_of t)) (y_at sig.now i) }
{
    let from = coef(s, i, t.w());
    chain(id, leaf, i as u16, from, max_digit(t), y_at(sig, i))
}

// Writes the signature's text, of the digits `s` and a one-time signature.
#[tactic(auto, using(lms_ots::proofs::Types::types))]
fn put_shown(t: OtsType, id: &[u8; 16], leaf: u32, s: &[u8; 34], sig: &[u8], out: &mut [u8])
    requires long { length sig.now ≡ sig_len_of t }
    requires room { length out.old ≡ 22 + 32 * chains_of t }
    ensures { out.new ≡ key_text id.now leaf
        (candidate_ends id.now leaf (width_of t) s.now sig.now (chains_of t)) }
{
    put(out, 0, &tagged(id, leaf, D_PBLC));
    'chains: for i in 0..t.p() {
        put(
            out,
            22 + 32 * i as usize,
            &shown_end(t, id, leaf, i, s, sig),
        );
    }
}

// The signature's text.
pub(crate) fn shown_key_text(
    alloc: Global,
    t: OtsType,
    id: &[u8; 16],
    leaf: u32,
    s: &[u8; 34],
    sig: &[u8],
) -> Result<Vec<u8>, OutOfMemory>
    requires { length sig.now ≡ sig_len_of t }
    ensures { IfOk result (λ text. text.items ≡ key_text id.now leaf
        (candidate_ends id.now leaf (width_of t) s.now sig.now (chains_of t))) }
{
    let mut out = vec![in alloc; 0u8; 22 + 32 * t.p() as usize]?;
    put_shown(t, id, leaf, s, sig, out.as_mut_slice());
    Ok(out)
}
