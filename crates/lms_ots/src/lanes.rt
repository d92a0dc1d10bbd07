//! One-time keys, signatures and candidates with four chains side by side (RFC 8554, 4.3, 4.5 and
//! 4.6).
ghost use Rattle.std.specs.Prelude.{◌≡◌, ℕ, ◌+◌, ◌-◌, ◌*◌, ◌<◌, ◌≤◌, ◌++◌, [], length, slice_index, slice_index_or, take};
ghost use Rattle.std.specs.Option.{SomeIff};
ghost use Rattle.lms_ots.specs.Parameters.{chains_of, max_digit, sig_len_of, width_of};
ghost use Rattle.lms_ots.specs.Ots.{IsOtsSignature, candidate, candidate_ends, chain, coef, key_hash, y_at};
ghost use Rattle.lms_ots.specs.Signing.{one_time_key, ots_signature, secret_start, signed_chains};
ghost use Rattle.lms_ots.specs.Lanes.{joined_to};

mod four;
mod keys;
mod running;
mod secrets;

use crate::chains::tagged;
use crate::digits::coef;
use crate::lanes::running::run;
use crate::lanes::secrets::chains_from_secret;
use crate::ots_type::OtsType;
use crate::signing::{RANDOMIZER, secret_start};
use crate::verifying::{D_PBLC, max_digit, message_hash, with_cksm, y_at};
use cp_bytes::put;
pub use keys::ots_publics;
use sha2::{Digest, Sha256};

// The most chains that a type has.
const MAX_CHAINS: usize = 265;

// The hash of the chains' ends.
#[tactic(auto, unfolding(crate::specs::Lanes::joined_to))]
fn key_hash(id: &[u8; 16], q: u32, ends: &[[u8; 32]]) -> [u8; 32]
    ensures { result ≡ key_hash id.now q (joined_to ends.now (length ends.now)) }
{
    let mut hasher = Sha256::new_with_prefix(&tagged(id, q, D_PBLC));
    'ends: for i in 0..ends.len() {
        hasher.update(&ends[i]);
    }
    hasher.finalize()
}

// The digits of `s`, one for each chain.
#[tactic(auto, using(crate::proofs::Types::types))]
fn digits_of(t: OtsType, s: &[u8; 34]) -> [u8; MAX_CHAINS]
    ensures { (i : ℕ) → i < chains_of t → slice_index result i ≡ coef s.now i (width_of t) }
{
    let mut digits = [0; MAX_CHAINS];
    'digits: for i in 0..t.p() {
        digits[i as usize] = coef(s, i, t.w());
    }
    digits
}

// One step for all chains.
fn all_at(step: u8) -> [u8; MAX_CHAINS]
    ensures { (i : ℕ) → i < MAX_CHAINS → slice_index result i ≡ step }
{
    [step; MAX_CHAINS]
}

// K, by way of all chains' ends.
#[tactic(auto, using(crate::proofs::Types::types))]
fn public_by(
    t: OtsType,
    id: &[u8; 16],
    q: u32,
    secret: &[u8; 32],
    ends: &mut [[u8; 32]],
) -> [u8; 32]
    requires { length ends.old ≡ chains_of t }
    ensures { result ≡ one_time_key t id.now q secret.now }
{
    chains_from_secret(id, q, secret, max_digit(t), ends);
    key_hash(id, q, ends)
}

/// K, the one-time public key of the key `id`, the leaf `q` and the seed `secret` (RFC 8554, 4.3,
/// algorithm 1, with the secret values of Appendix A).
#[tactic(auto, using(crate::proofs::Types::types))]
pub fn ots_public(t: OtsType, id: &[u8; 16], q: u32, secret: &[u8; 32]) -> [u8; 32]
    ensures { result ≡ one_time_key t id.now q secret.now }
{
    let mut ends = [[0; 32]; MAX_CHAINS];
    public_by(t, id, q, secret, &mut ends[..t.p() as usize])
}

// y[i] of each chain: its value at its digit of `s`.
#[tactic(auto, using(crate::proofs::Types::types))]
fn put_signed(
    t: OtsType,
    id: &[u8; 16],
    q: u32,
    secret: &[u8; 32],
    s: &[u8; 34],
    values: &mut [[u8; 32]],
)
    requires { length values.old ≡ chains_of t }
    ensures { (i : ℕ) → i < chains_of t → slice_index_or values.new i [] ≡ chain id.now q i 0 (coef s.now i (width_of t)) (secret_start id.now q i secret.now) }
{
    let mut at = all_at(0);
    chains_from_secret(id, q, secret, 0, values);
    let to = digits_of(t, s);
    run(id, q, &mut at, &to, values);
}

// Writes the values, joined, behind the 36 bytes of type code and C.
#[tactic(auto, using(crate::proofs::Types::types), unfolding(crate::specs::Lanes::joined_to))]
fn put_joined(t: OtsType, values: &[[u8; 32]], out: &mut [u8])
    requires values { length values.now ≡ chains_of t }
    requires out { length out.old ≡ sig_len_of t }
    ensures { out.new ≡ take 36 out.old ++ joined_to values.now (chains_of t) }
{
    'values: for i in 0..values.len() {
        put(out, 36 + 32 * i, &values[i]);
    }
}

// Writes y[0] to y[p-1] behind the 36 bytes of type code and C.
#[tactic(auto, using(crate::proofs::Types::types))]
fn put_chains(
    t: OtsType,
    id: &[u8; 16],
    q: u32,
    secret: &[u8; 32],
    s: &[u8; 34],
    values: &mut [[u8; 32]],
    out: &mut [u8],
)
    requires values { length values.old ≡ chains_of t }
    requires out { length out.old ≡ sig_len_of t }
    ensures { out.new ≡ take 36 out.old ++ signed_chains id.now q (width_of t) s.now secret.now (chains_of t) }
{
    put_signed(t, id, q, secret, s, values);
    put_joined(t, values, out);
}

/// Writes the signature of `text` by the leaf `q` into `out`, which has the length of a signature:
/// the type code, the randomizer C and a value of 32 bytes for each chain. It is a function of type,
/// identifier, leaf, seed and text. A leaf may sign one text only: two signatures of one leaf give
/// away values from which others can be forged (RFC 8554, 4.5, algorithm 3).
#[tactic(auto, using(crate::proofs::Types::types), unfolding(crate::specs::Signing::ots_signature))]
pub fn ots_sign(t: OtsType, id: &[u8; 16], q: u32, secret: &[u8; 32], text: &[u8], out: &mut [u8])
    requires { length out.old ≡ sig_len_of t }
    ensures { out.new ≡ ots_signature t id.now q secret.now text.now }
{
    let randomizer = secret_start(id, q, RANDOMIZER, secret);
    let hash = message_hash(id, q, &randomizer, text);
    let s = with_cksm(&hash, t.w());
    put(out, 0, &t.code().to_be_bytes());
    put(out, 4, &randomizer);
    let mut values = [[0; 32]; MAX_CHAINS];
    put_chains(t, id, q, secret, &s, &mut values[..t.p() as usize], out);
}

// z[i] of each chain: its end, reached from y[i].
#[tactic(auto, using(crate::proofs::Types::types))]
fn put_ends(t: OtsType, id: &[u8; 16], q: u32, s: &[u8; 34], sig: &[u8], values: &mut [[u8; 32]])
    requires sig { length sig.now ≡ sig_len_of t }
    requires values { length values.old ≡ chains_of t }
    ensures { (i : ℕ) → i < chains_of t → slice_index_or values.new i [] ≡ chain id.now q i (coef s.now i (width_of t)) (max_digit (width_of t)) (y_at sig.now i) }
{
    'values: for i in 0..t.p() {
        values[i as usize] = y_at(sig, i);
    }
    let mut at = digits_of(t, s);
    let to = all_at(max_digit(t));
    run(id, q, &mut at, &to, values);
}

// Kc, by way of all chains' ends.
#[tactic(auto, using(crate::proofs::Types::types))]
fn candidate_by(
    t: OtsType,
    id: &[u8; 16],
    q: u32,
    s: &[u8; 34],
    sig: &[u8],
    ends: &mut [[u8; 32]],
) -> [u8; 32]
    requires sig { length sig.now ≡ sig_len_of t }
    requires ends { length ends.old ≡ chains_of t }
    ensures { result ≡ key_hash id.now q (candidate_ends id.now q (width_of t) s.now sig.now (chains_of t)) }
{
    put_ends(t, id, q, s, sig, ends);
    key_hash(id, q, ends)
}

// Kc of a signature of the right form.
#[tactic(auto, using(crate::proofs::Types::types), unfolding(crate::specs::Ots::candidate))]
fn candidate(t: OtsType, id: &[u8; 16], q: u32, text: &[u8], sig: &[u8]) -> [u8; 32]
    requires { length sig.now ≡ sig_len_of t }
    ensures { result ≡ candidate t id.now q text.now sig.now }
{
    let hash = message_hash(id, q, &sig[4..36], text);
    let s = with_cksm(&hash, t.w());
    let mut ends = [[0; 32]; MAX_CHAINS];
    candidate_by(t, id, q, &s, sig, &mut ends[..t.p() as usize])
}

/// Kc, the candidate for the one-time public key of the key `id` and the leaf `q` that the signature
/// of `text` gives. It is the public key itself exactly where the signature is good, which only a
/// comparison with the public key tells. None exactly where the signature hasn't the type's length
/// or its type code (RFC 8554, 4.6, algorithm 4b).
#[tactic(auto, using(crate::proofs::Types::types))]
pub fn ots_candidate(t: OtsType, id: &[u8; 16], q: u32, text: &[u8], sig: &[u8]) -> Option<[u8; 32]>
    ensures { SomeIff result (IsOtsSignature t sig.now) (candidate t id.now q text.now sig.now) }
{
    if sig.len() != t.sig_len() {
        return None;
    }
    if u32::from_be_bytes([sig[0], sig[1], sig[2], sig[3]]) != t.code() {
        return None;
    }
    Some(candidate(t, id, q, text, sig))
}
