//! What was sealed of an epoch.

use cp_bytes::Bytes;

/// The texts of an epoch that was sealed and isn't published yet (this project's own).
#[derive(Debug, Drop)]
pub struct SealedText {
    /// The number of the leaf that signs the closing.
    pub leaf: u32,
    /// The closing's text.
    pub text: [u8; 156],
    /// The text of the table of all blocks with an entry.
    pub table: Bytes,
    /// The text of the epoch's log.
    pub log: Bytes,
}
