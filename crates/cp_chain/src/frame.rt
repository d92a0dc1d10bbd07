//! Where a segment stands.
use cp_families::Families;
use cp_tips::Tip;

/// The store, the families list, the epoch and the block of a segment, and how the block stands before
/// its first text and behind its last (this project's own).
#[derive(Drop)]
pub struct Frame<'a> {
    /// SHA-256 of the store's key.
    pub store: [u8; 32],
    /// The families list of the epoch.
    pub families: Families<'a>,
    /// The segment's epoch, at least 1.
    pub epoch: u64,
    /// The block's number.
    pub block: u64,
    /// The block's tip at the end of the epoch before.
    pub before: Tip,
    /// The block's tip at the end of the segment's epoch.
    pub after: Tip,
}
