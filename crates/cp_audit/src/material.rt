//! What an auditor is handed of an epoch.
use lms_tree::PublicKey;

/// The material of a closed epoch, from any store whatever (this project's own). For epoch 1
/// `before` and `table_before` are empty.
#[derive(Clone, Copy)]
pub struct Material<'a> {
    /// The store's key.
    pub key: PublicKey,
    /// The epoch's number.
    pub epoch: u64,
    /// The families list of the epoch, as its text.
    pub families: &'a [u8],
    /// The envelope of the closing of the epoch before.
    pub before: &'a [u8],
    /// The envelope of the epoch's closing.
    pub closing: &'a [u8],
    /// The text of the table that the closing before names.
    pub table_before: &'a [u8],
    /// The text of the table that the closing names.
    pub table: &'a [u8],
    /// The text of the log.
    pub log: &'a [u8],
}
