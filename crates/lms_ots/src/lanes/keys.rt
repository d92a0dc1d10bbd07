//! The one-time public keys of four leaves, a leaf in each lane (RFC 8554, 4.3).
ghost use Rattle.std.specs.Prelude.{◌≡◌, ℕ, ◌+◌, ◌*◌, ◌^◌, ◌<◌, ◌≤◌, ◌++◌, [], length, slice_index_or, take};
ghost use Rattle.lms_ots.specs.Parameters.{chains_of, max_digit, width_of};
ghost use Rattle.lms_ots.specs.Ots.{chain, d_pblc, tagged};
ghost use Rattle.lms_ots.specs.Signing.{one_time_key, public_ends, secret_start};

use crate::chains::{step_message, tagged};
use crate::lanes::four::steps_of_texts;
use crate::ots_type::OtsType;
use crate::verifying::{D_PBLC, max_digit};
use cp_bytes::put;
use sha256_lanes::digests_of_four;

// The most bytes that are hashed into a key: 22, and 32 for each of 265 chains.
const MAX_TEXT: usize = 8502;

// Chain `i` of the four leaves from `q` on, `count` steps on from its secret starts.
fn chain_of_four(id: &[u8; 16], q: u32, i: u16, secret: &[u8; 32], count: u8) -> [[u8; 32]; 4]
    requires { q + 3 < 2 ^ 32 }
    ensures { (j : ℕ) → j < 4 → slice_index_or result j [] ≡ chain id.now (q + j) i 0 count (secret_start id.now (q + j) i secret.now) }
{
    let texts = [
        step_message(id, q, i),
        step_message(id, q + 1, i),
        step_message(id, q + 2, i),
        step_message(id, q + 3, i),
    ];
    let starts = steps_of_texts(&texts, &[0xff; 4], 1, &[*secret; 4]);
    steps_of_texts(&texts, &[0; 4], count, &starts)
}

// The ends of chain `i` of the four leaves from `q` on.
#[tactic(auto, using(crate::proofs::Types::types))]
fn ends_of_four(t: OtsType, id: &[u8; 16], q: u32, i: u32, secret: &[u8; 32]) -> [[u8; 32]; 4]
    requires leaves { q + 3 < 2 ^ 32 }
    requires chain { i < chains_of t }
    ensures { (j : ℕ) → j < 4 → slice_index_or result j [] ≡ chain id.now (q + j) i 0 (max_digit (width_of t)) (secret_start id.now (q + j) i secret.now) }
{
    chain_of_four(id, q, i as u16, secret, max_digit(t))
}

// Writes the texts whose hashes are the keys of the four leaves from `q` on: all chains' ends behind
// the first 22 bytes.
#[tactic(auto, using(crate::proofs::Types::types), unfolding(crate::specs::Signing::public_ends))]
fn put_texts(
    t: OtsType,
    id: &[u8; 16],
    q: u32,
    secret: &[u8; 32],
    first: &mut [u8],
    second: &mut [u8],
    third: &mut [u8],
    fourth: &mut [u8],
)
    requires leaves { q + 3 < 2 ^ 32 }
    requires first { length first.old ≡ 22 + 32 * chains_of t }
    requires second { length second.old ≡ 22 + 32 * chains_of t }
    requires third { length third.old ≡ 22 + 32 * chains_of t }
    requires fourth { length fourth.old ≡ 22 + 32 * chains_of t }
    ensures first { first.new ≡ tagged id.now q d_pblc ++ public_ends id.now q (width_of t) secret.now (chains_of t) }
    ensures second { second.new ≡ tagged id.now (q + 1) d_pblc ++ public_ends id.now (q + 1) (width_of t) secret.now (chains_of t) }
    ensures third { third.new ≡ tagged id.now (q + 2) d_pblc ++ public_ends id.now (q + 2) (width_of t) secret.now (chains_of t) }
    ensures fourth { fourth.new ≡ tagged id.now (q + 3) d_pblc ++ public_ends id.now (q + 3) (width_of t) secret.now (chains_of t) }
{
    put(first, 0, &tagged(id, q, D_PBLC));
    put(second, 0, &tagged(id, q + 1, D_PBLC));
    put(third, 0, &tagged(id, q + 2, D_PBLC));
    put(fourth, 0, &tagged(id, q + 3, D_PBLC));
    'chains: for i in 0..t.p() {
        let ends = ends_of_four(t, id, q, i, secret);
        let at = 22 + 32 * i as usize;
        put(first, at, &ends[0]);
        put(second, at, &ends[1]);
        put(third, at, &ends[2]);
        put(fourth, at, &ends[3]);
    }
}

// The keys, by way of those texts.
#[tactic(auto, using(crate::proofs::Types::types))]
fn publics_by(
    t: OtsType,
    id: &[u8; 16],
    q: u32,
    secret: &[u8; 32],
    first: &mut [u8],
    second: &mut [u8],
    third: &mut [u8],
    fourth: &mut [u8],
) -> [[u8; 32]; 4]
    requires leaves { q + 3 < 2 ^ 32 }
    requires first { length first.old ≡ 22 + 32 * chains_of t }
    requires second { length second.old ≡ 22 + 32 * chains_of t }
    requires third { length third.old ≡ 22 + 32 * chains_of t }
    requires fourth { length fourth.old ≡ 22 + 32 * chains_of t }
    ensures { (j : ℕ) → j < 4 → slice_index_or result j [] ≡ one_time_key t id.now (q + j) secret.now }
{
    put_texts(t, id, q, secret, first, second, third, fourth);
    digests_of_four(first, second, third, fourth)
}

/// The one-time public keys of the key `id` and the seed `secret` for the four leaves from `q` on,
/// each at its place: the same as by four calls of `ots_public`, with one chain of four leaves, and
/// then their hashes over all chains' ends, side by side.
#[tactic(auto, using(crate::proofs::Types::types))]
pub fn ots_publics(t: OtsType, id: &[u8; 16], q: u32, secret: &[u8; 32]) -> [[u8; 32]; 4]
    requires { q + 3 < 2 ^ 32 }
    ensures { (j : ℕ) → j < 4 → slice_index_or result j [] ≡ one_time_key t id.now (q + j) secret.now }
{
    let length = 22 + 32 * t.p() as usize;
    let mut first = [0; MAX_TEXT];
    let mut second = [0; MAX_TEXT];
    let mut third = [0; MAX_TEXT];
    let mut fourth = [0; MAX_TEXT];
    publics_by(
        t,
        id,
        q,
        secret,
        &mut first[..length],
        &mut second[..length],
        &mut third[..length],
        &mut fourth[..length],
    )
}
