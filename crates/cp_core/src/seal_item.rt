//! One epoch's closing in the life of a store.

use cp_bytes::Bytes;

/// What was signed and hashed at the end of an epoch (this project's own).
#[derive(Debug, Drop)]
pub struct SealItem {
    /// The epoch, from 1.
    pub epoch: u64,
    /// The number of the leaf that signs the closing.
    pub leaf: u32,
    /// The closing's text.
    pub text: Bytes,
    /// The table's text.
    pub table: Bytes,
    /// The families list's text.
    pub families: Bytes,
}
