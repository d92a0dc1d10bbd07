//! The chains of hashes (RFC 8554, 4.3, 4.5 and 4.6).
ghost use Rattle.std.specs.Prelude.{◌≡◌, ◌+◌, ◌-◌, ◌<◌, ◌≤◌, ◌++◌, ◌∷◌, length, take};
ghost use Rattle.lms_ots.specs.Ots.{chain, step_text, tagged};

use cp_bytes::put;
use sha2::{Digest, Sha256};

/// The 22 bytes that each hashed text of LM-OTS and LMS begins with: the key's identifier I, the
/// number of a leaf or a node, and a chain's number or one of the standard's constants `D_...`
/// (RFC 8554, 4.3 to 4.6 and 5.3).
pub fn tagged(id: &[u8; 16], number: u32, tag: u16) -> [u8; 22]
    ensures { result ≡ tagged id.now number tag }
{
    let mut out = [0u8; 22];
    put(&mut out, 0, id);
    put(&mut out, 16, &number.to_be_bytes());
    put(&mut out, 20, &tag.to_be_bytes());
    out
}

// Writes a step's number and value behind the first 22 bytes.
pub(crate) fn put_step(message: &mut [u8; 55], j: u8, value: &[u8; 32])
    ensures { message.new ≡ take 22 message.old ++ (j ∷ value.now) }
{
    put(message, 22, &[j]);
    put(message, 23, value);
}

// The text of a step of chain `i`, with zeros in place of the step's number and value.
pub(crate) fn step_message(id: &[u8; 16], q: u32, i: u16) -> [u8; 55]
    ensures { take 22 result ≡ tagged id.now q i }
{
    let mut message = [0u8; 55];
    put(&mut message, 0, &tagged(id, q, i));
    message
}

/// The 55 bytes that step `j` of chain `i` hashes (RFC 8554, 4.3).
pub fn step_text(id: &[u8; 16], q: u32, i: u16, j: u8, value: &[u8; 32]) -> [u8; 55]
    ensures { result ≡ step_text id.now q i j value.now }
{
    let mut message = step_message(id, q, i);
    put_step(&mut message, j, value);
    message
}

/// Chain `i` from step `from` up to and without step `to` (RFC 8554, 4.3). The text of all steps is
/// built once, and each step changes 33 of its bytes and is one compression.
#[tactic(auto, unfolding(crate::specs::Ots::steps))]
pub fn chain(id: &[u8; 16], q: u32, i: u16, from: u8, to: u8, start: [u8; 32]) -> [u8; 32]
    requires { from ≤ to }
    ensures { result ≡ chain id.now q i from to start }
{
    let mut message = step_message(id, q, i);
    let mut value = start;
    for j in from..to {
        put_step(&mut message, j, &value);
        value = Sha256::digest(&message);
    }
    value
}
