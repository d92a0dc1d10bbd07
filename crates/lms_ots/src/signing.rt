//! Making one-time keys and signatures (RFC 8554, 4.3, 4.5 and Appendix A).
ghost use Rattle.std.specs.Prelude.{◌≡◌, ◌+◌, ◌-◌, ◌*◌, ◌<◌, ◌≤◌, ◌++◌, length, take};
ghost use Rattle.lms_ots.specs.Parameters.{chains_of, max_digit, sig_len_of, width_of};
ghost use Rattle.lms_ots.specs.Ots.{chain, coef};
ghost use Rattle.lms_ots.specs.Signing.{one_time_key, ots_signature, secret_start};
ghost use Rattle.lms_ots.specs.Laws.{SignedHasItsForm, SignedLeadsToItsKey};

use crate::chains::{chain, put_step, step_message, tagged};
use crate::digits::coef;
use crate::ots_type::OtsType;
use crate::verifying::{D_PBLC, max_digit, message_hash, with_cksm};
use cp_bytes::put;
use sha2::{Digest, Sha256};

/// The chain number under which the randomizer is made (this project's own): no type has so many
/// chains.
pub const RANDOMIZER: u16 = 0xfffd;

/// x[i], the secret start of chain `i` (RFC 8554, Appendix A).
pub fn secret_start(id: &[u8; 16], q: u32, i: u16, secret: &[u8; 32]) -> [u8; 32]
    ensures { result ≡ secret_start id.now q i secret.now }
{
    let mut message = step_message(id, q, i);
    put_step(&mut message, 0xff, secret);
    Sha256::digest(&message)
}

// The public end of chain `i`.
#[tactic(auto, using(crate::proofs::Types::types))]
fn last(t: OtsType, id: &[u8; 16], q: u32, i: u32, secret: &[u8; 32]) -> [u8; 32]
    requires { i < chains_of t }
    ensures { result ≡ chain id.now q i 0 (max_digit (width_of t)) (secret_start id.now q i secret.now) }
{
    let start = secret_start(id, q, i as u16, secret);
    chain(id, q, i as u16, 0, max_digit(t), start)
}

// y[i], the value of chain `i` at its digit of `s`.
#[tactic(auto, using(crate::proofs::Types::types))]
fn part(t: OtsType, id: &[u8; 16], q: u32, i: u32, s: &[u8; 34], secret: &[u8; 32]) -> [u8; 32]
    requires { i < chains_of t }
    ensures { result ≡ chain id.now q i 0 (coef s.now i (width_of t)) (secret_start id.now q i secret.now) }
{
    let start = secret_start(id, q, i as u16, secret);
    chain(id, q, i as u16, 0, coef(s, i, t.w()), start)
}

/// K, the one-time public key of the key `id`, the leaf `q` and the seed `secret` (RFC 8554, 4.3,
/// algorithm 1, with the secret values of Appendix A).
#[tactic(auto, using(crate::proofs::Types::types), unfolding(crate::specs::Signing::one_time_key, crate::specs::Signing::public_ends))]
pub fn ots_public(t: OtsType, id: &[u8; 16], q: u32, secret: &[u8; 32]) -> [u8; 32]
    ensures { result ≡ one_time_key t id.now q secret.now }
{
    let mut hasher = Sha256::new_with_prefix(&tagged(id, q, D_PBLC));
    'chains: for i in 0..t.p() {
        hasher.update(&last(t, id, q, i, secret));
    }
    hasher.finalize()
}

/// Writes the signature of `text` by the leaf `q` into `out`, which has the length of a signature:
/// the type code, the randomizer C and a value of 32 bytes for each chain. It is a function of type,
/// identifier, leaf, seed and text. A leaf may sign one text only: two signatures of one leaf give
/// away values from which others can be forged (RFC 8554, 4.5, algorithm 3).
#[tactic(auto, using(crate::proofs::Types::types), unfolding(crate::specs::Signing::ots_signature, crate::specs::Signing::signed_chains))]
pub fn ots_sign(t: OtsType, id: &[u8; 16], q: u32, secret: &[u8; 32], text: &[u8], out: &mut [u8])
    requires { length out.old ≡ sig_len_of t }
    ensures { out.new ≡ ots_signature t id.now q secret.now text.now }
{
    let randomizer = secret_start(id, q, RANDOMIZER, secret);
    let hash = message_hash(id, q, &randomizer, text);
    let s = with_cksm(&hash, t.w());
    put(out, 0, &t.code().to_be_bytes());
    put(out, 4, &randomizer);
    'parts: for i in 0..t.p() {
        put(out, 36 + 32 * i as usize, &part(t, id, q, i, &s, secret));
    }
}

/// A law: what is signed has its type's length and code, and a verifier's candidate for it is the
/// public key of the same seed. It holds for every type, identifier, leaf, seed and text.
#[tactic(auto, using(crate::proofs::Signed::signed_leads))]
pub fn what_is_signed_leads_to_its_key()
    ensures form { SignedHasItsForm }
    ensures key { SignedLeadsToItsKey }
{}
