//! The digits that a signature shows of each chain, and those that the key's own signature revealed
//! (RFC 8554, 4.5).
ghost use Rattle.std.specs.Prelude.{◌≡◌, ℕ, ◌+◌, ◌*◌, ◌<◌, ◌≤◌, length, slice_index, take, drop};
ghost use Rattle.std.specs.Option.{option_copied};
ghost use Rattle.lms_ots.specs.Parameters.{chains_of, max_digit, sig_len_of, width_of};
ghost use Rattle.lms_ots.specs.Ots.{with_cksm};
ghost use Rattle.lms_forge.specs.Form.{HasForm};
ghost use Rattle.lms_forge.specs.Revealed.{own_hash, revealed_digit, shown_digit, shown_hash, shown_randomizer};
ghost use Rattle.lms_forge.specs.Witness.{low_chain};
ghost use Rattle.lms_tree.specs.Verifying.{leaf_of};

use crate::fields::{array32, leaf_of, one_time};
use crate::steps::{MAX_CHAINS, digits_of, least_below};
use cp_bytes::Bytes;
use lms_ots::{OtsType, max_digit, message_hash, with_cksm};
use lms_tree::PrivateKey;

// Q of a text that the key signs.
pub(crate) fn own_hash(key: &PrivateKey, leaf: u32, text: &[u8]) -> [u8; 32]
    ensures { result ≡ own_hash key.now leaf text.now }
{
    message_hash(&key.id(), leaf, &key.randomizer(leaf), text)
}

// The signature's C.
pub(crate) fn shown_randomizer(key: &PrivateKey, sig: &[u8]) -> [u8; 32]
    requires { HasForm key.now sig.now }
    ensures { result ≡ shown_randomizer key.now sig.now }
{
    array32(one_time(key.ots(), sig), 4)
}

// Q of the text under the signature's C.
pub(crate) fn shown_hash(key: &PrivateKey, text: &[u8], sig: &[u8]) -> [u8; 32]
    requires { HasForm key.now sig.now }
    ensures { result ≡ shown_hash key.now text.now sig.now }
{
    message_hash(&key.id(), leaf_of(sig), &shown_randomizer(key, sig), text)
}

// Q || Cksm(Q) of the text under the signature's C.
#[tactic(auto, using(lms_ots::proofs::Types::types))]
pub(crate) fn shown_digits(key: &PrivateKey, text: &[u8], sig: &[u8]) -> [u8; 34]
    requires { HasForm key.now sig.now }
    ensures { result ≡ with_cksm (shown_hash key.now text.now sig.now) (width_of key.now.ots) }
{
    with_cksm(&shown_hash(key, text, sig), key.ots().w())
}

// The greatest digit, for each chain.
fn greatest(t: OtsType) -> [u8; MAX_CHAINS]
    ensures { (i : ℕ) → i < 265 → slice_index result i ≡ max_digit (width_of t) }
{
    [max_digit(t); MAX_CHAINS]
}

// The digits that the key's own signature of the leaf's text revealed, or the greatest of each
// chain.
#[tactic(auto, using(lms_ots::proofs::Types::types), unfolding(crate::specs::Revealed::revealed_digit))]
pub(crate) fn revealed_digits(
    key: &PrivateKey,
    leaf: u32,
    signed: Option<&Bytes>,
) -> [u8; MAX_CHAINS]
    ensures { (i : ℕ) → i < chains_of key.now.ots →
        slice_index result i ≡ revealed_digit key.now (option_copied signed.entry) leaf i }
{
    let t = key.ots();
    match signed {
        Some(text) => {
            let hash = own_hash(key, leaf, text.as_slice());
            digits_of(t, &with_cksm(&hash, t.w()))
        }
        None => greatest(t),
    }
}

// The least chain whose digit, of those that the signature shows, is below the revealed one.
#[tactic(auto, using(lms_ots::proofs::Types::types))]
pub(crate) fn low_chain(
    key: &PrivateKey,
    signed: Option<&Bytes>,
    text: &[u8],
    sig: &[u8],
) -> (u32, u8, u8)
    requires form { HasForm key.now sig.now }
    requires some { low_chain key.now (option_copied signed) text.now sig.now < chains_of key.now.ots }
    ensures chain { result.0 ≡ low_chain key.now (option_copied signed.entry) text.now sig.now }
    ensures step { result.1 ≡ shown_digit key.now text.now sig.now result.0 }
    ensures low { result.1 < result.2 }
    ensures within { result.0 < chains_of key.now.ots }
    ensures revealed { result.2 ≡
        revealed_digit key.now (option_copied signed.entry) (leaf_of sig.now) result.0 }
{
    let t = key.ots();
    let shown = digits_of(t, &shown_digits(key, text, sig));
    let revealed = revealed_digits(key, leaf_of(sig), signed);
    let i = least_below(t.p(), &shown, &revealed);
    (i, shown[i as usize], revealed[i as usize])
}
