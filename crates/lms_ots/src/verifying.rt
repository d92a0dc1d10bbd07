//! The candidate for the one-time public key that a signature gives (RFC 8554, 4.6).
ghost use Rattle.std.specs.Prelude.{◌≡◌, ◌+◌, ◌-◌, ◌*◌, ◌<◌, ◌≤◌, ◌++◌, length};
ghost use Rattle.std.specs.Option.{SomeIff};
ghost use Rattle.lms_ots.specs.Parameters.{IsWidth, chains_of, max_digit, sig_len_of, width_of};
ghost use Rattle.lms_ots.specs.Ots.{IsOtsSignature, candidate, chain, coef, message_hash, with_cksm, y_at};

use crate::chains::{chain, tagged};
use crate::digits::{cksm, coef};
use crate::ots_type::OtsType;
use cp_bytes::put;
use sha2::{Digest, Sha256};

/// D_PBLC (RFC 8554, 4.3).
pub const D_PBLC: u16 = 0x8080;

/// D_MESG (RFC 8554, 4.5).
pub const D_MESG: u16 = 0x8181;

/// Q, the hash that is signed (RFC 8554, 4.5).
#[tactic(auto, unfolding(crate::specs::Ots::message_hash))]
pub fn message_hash(id: &[u8; 16], q: u32, randomizer: &[u8], text: &[u8]) -> [u8; 32]
    ensures { result ≡ message_hash id.now q randomizer.now text.now }
{
    let mut hasher = Sha256::new_with_prefix(&tagged(id, q, D_MESG));
    hasher.update(randomizer);
    hasher.update(text);
    hasher.finalize()
}

/// Q || Cksm(Q), whose digits a signature shows (RFC 8554, 4.5).
pub fn with_cksm(hash: &[u8; 32], w: u32) -> [u8; 34]
    requires { IsWidth w }
    ensures { result ≡ with_cksm hash.now w }
{
    let mut out = [0u8; 34];
    put(&mut out, 0, hash);
    put(&mut out, 32, &cksm(hash, w).to_be_bytes());
    out
}

/// y[i], the 32 bytes that a one-time signature shows of chain `i` (RFC 8554, 4.5).
pub fn y_at(sig: &[u8], i: u32) -> [u8; 32]
    requires { 68 + 32 * i ≤ length sig.now }
    ensures { result ≡ y_at sig.now i }
{
    let at = 36 + 32 * i as usize;
    let mut out = [0u8; 32];
    out.copy_from_slice(&sig[at..at + 32]);
    out
}

/// 2^w - 1, the greatest digit, which is the number of steps of a whole chain (RFC 8554, 4.3).
pub fn max_digit(t: OtsType) -> u8
    ensures { result ≡ max_digit (width_of t) }
{
    match t {
        OtsType::W1 => 1,
        OtsType::W2 => 3,
        OtsType::W4 => 15,
        OtsType::W8 => 255,
    }
}

// z[i], the end of chain `i`, reached from y[i].
#[tactic(auto, using(crate::proofs::Types::types))]
fn chain_end(t: OtsType, id: &[u8; 16], q: u32, i: u32, s: &[u8; 34], sig: &[u8]) -> [u8; 32]
    requires length { length sig.now ≡ sig_len_of t }
    requires within { i < chains_of t }
    ensures { result ≡ chain id.now q i (coef s.now i (width_of t)) (max_digit (width_of t)) (y_at sig.now i) }
{
    let from = coef(s, i, t.w());
    chain(id, q, i as u16, from, max_digit(t), y_at(sig, i))
}

// The hash of all ends.
#[tactic(auto, using(crate::proofs::Types::types), unfolding(crate::specs::Ots::candidate))]
fn candidate(t: OtsType, id: &[u8; 16], q: u32, text: &[u8], sig: &[u8]) -> [u8; 32]
    requires { length sig.now ≡ sig_len_of t }
    ensures { result ≡ candidate t id.now q text.now sig.now }
{
    let hash = message_hash(id, q, &sig[4..36], text);
    let s = with_cksm(&hash, t.w());
    let mut hasher = Sha256::new_with_prefix(&tagged(id, q, D_PBLC));
    'chains: for i in 0..t.p() {
        hasher.update(&chain_end(t, id, q, i, &s, sig));
    }
    hasher.finalize()
}

/// Kc, the candidate for the one-time public key of the key `id` and the leaf `q` that the signature
/// of `text` gives. It is the public key itself exactly where the signature is good, which only a
/// comparison with the public key tells. None exactly where the signature hasn't the type's length
/// or its type code (RFC 8554, 4.6, algorithm 4b).
#[tactic(auto, using(crate::proofs::Types::types))]
pub fn ots_candidate(t: OtsType, id: &[u8; 16], q: u32, text: &[u8], sig: &[u8]) -> Option<[u8; 32]>
    ensures { SomeIff result (IsOtsSignature t sig.now) (candidate t id.now q text.now sig.now) }
{
    if sig.len() != t.sig_len() {
        return None;
    }
    if u32::from_be_bytes([sig[0], sig[1], sig[2], sig[3]]) != t.code() {
        return None;
    }
    Some(candidate(t, id, q, text, sig))
}
