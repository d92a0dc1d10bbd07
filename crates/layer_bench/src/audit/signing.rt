//! The store's key, and signed texts.
use cp_bytes::OutOfMemory;
use lms_ots::OtsType;
use lms_tree::{Height, PrivateKey};
use std::alloc::Global;

/// The store's key of this height and width 4.
pub fn key_of(alloc: Global, height: Height) -> Result<PrivateKey, OutOfMemory> {
    PrivateKey::make(alloc, [7; 32], [9; 16], height, OtsType::W4)
}

/// Adds a part behind its length of four bytes, big endian.
pub fn push_part(text: &[u8], out: &mut Vec<u8>) -> Result<(), OutOfMemory> {
    let [_, _, _, _, a, b, c, d] = (text.len() as u64).to_be_bytes();
    out.extend_from_slice(&[a, b, c, d])?;
    out.extend_from_slice(text)
}

/// Adds the envelope of a text that the leaf signs.
pub fn push_signed(
    alloc: Global,
    key: &PrivateKey,
    leaf: u32,
    text: &[u8],
    out: &mut Vec<u8>,
) -> Result<(), OutOfMemory> {
    let mut signature = vec![in alloc; 0u8; key.sig_len()]?;
    if leaf < key.leaves() {
        key.sign_into(leaf, text, signature.as_mut_slice());
    }
    push_part(text, out)?;
    push_part(signature.as_slice(), out)
}
