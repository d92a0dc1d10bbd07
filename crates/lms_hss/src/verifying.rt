//! Whether a signature of two levels verifies (RFC 8554, 6.3).
ghost use Rattle.std.specs.Prelude.{◌≡◌, ◌+◌, ◌≤◌, IsTrue, length};
ghost use Rattle.std.specs.Option.{SomeIff};
ghost use Rattle.lms_tree.specs.PublicKey.{number_at};
ghost use Rattle.lms_hss.specs.Hss.{certifies, life_key, hss_verifies};

use crate::public::HssPublic;
use lms_tree::{PublicKey, verify};

// The number of the four bytes from `at` on, big endian.
pub(crate) fn number_at(bytes: &[u8], at: usize) -> u32
    requires { at + 4 ≤ length bytes.now }
    ensures { result ≡ number_at bytes.now at }
{
    let part = &bytes[at..at + 4];
    u32::from_be_bytes([part[0], part[1], part[2], part[3]])
}

/// The public key of the life that the certificate is for: none exactly where it isn't a certificate
/// under the key. It is `u32(1) || s0 || pub1`, where s0 is the top tree's signature of the life's
/// public key pub1 (RFC 8554, 6.2 and 6.3). No memory is taken.
pub fn certified_life(key: &HssPublic, certificate: &[u8]) -> Option<PublicKey>
    ensures { SomeIff result
        (IsTrue (certifies key.now certificate.now)) (life_key key.now certificate.now) }
{
    let n = key.top_len();
    if certificate.len() != 60 + n {
        return None;
    }
    let (levels, signed) = certificate.split_at(4);
    let is_one = levels == 1u32.to_be_bytes().as_slice();
    if !is_one {
        return None;
    }
    let (top_sig, life) = signed.split_at(n);
    match PublicKey::read(life) {
        Ok(public) => {
            if verify(&key.top(), life, top_sig) {
                Some(public)
            } else {
                None
            }
        }
        Err(_) => None,
    }
}

/// Whether the signature of `text` verifies under the key: it is a certificate under it, joined with
/// a signature of the text under the life's key that the certificate is for (RFC 8554, 6.3,
/// algorithm 9 for two levels). No memory is taken.
#[tactic(auto, unfolding(crate::specs::Hss::hss_verifies))]
pub fn hss_verify(key: &HssPublic, text: &[u8], sig: &[u8]) -> bool
    ensures { result ≡ hss_verifies key.now text.now sig.now }
{
    let end = 60 + key.top_len();
    if sig.len() < end {
        return false;
    }
    let (certificate, life_sig) = sig.split_at(end);
    match certified_life(key, certificate) {
        Some(life) => verify(&life, text, life_sig),
        None => false,
    }
}
