//! The files of a closed epoch.

use cp_bytes::Bytes;

/// The files of a closed epoch (this project's own).
#[derive(Debug, Drop)]
pub struct EpochFiles {
    /// The text of the families list.
    pub families: Bytes,
    /// The envelope of the closing's text and its signature.
    pub closing: Bytes,
    /// The text of the table.
    pub table: Bytes,
    /// The text of the log.
    pub log: Bytes,
}
