//! Digests side by side.

use sha256_lanes::{digests_of_55, digests_of_four};
use std::alloc::{AllocError, Global};

// The digests of four messages of 55 bytes, or of one message in each lane.
fn digests_of(bytes: &[u8]) -> [[u8; 32]; 4] {
    match bytes.as_chunks::<55>() {
        ([first, second, third, fourth], []) => {
            digests_of_55(&[*first, *second, *third, *fourth])
        }
        _ => digests_of_four(bytes, bytes, bytes, bytes),
    }
}

/// The digests, each in hexadecimal.
pub fn answer_to_digests(alloc: Global, bytes: &[u8]) -> Result<String, AllocError> {
    let [first, second, third, fourth] = digests_of(bytes);
    let first = hex::encode(alloc, first)?;
    let second = hex::encode(alloc, second)?;
    let third = hex::encode(alloc, third)?;
    let fourth = hex::encode(alloc, fourth)?;
    format!(in alloc; "{first} {second} {third} {fourth}")
}
