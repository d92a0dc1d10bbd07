//! Where a segment breaks a rule.
use crate::Rule;

/// A rule that a segment breaks, and where (this project's own).
#[derive(Clone, Copy, Debug, PartialEq, Eq)]
pub struct Fault {
    /// The rule that is broken.
    pub rule: Rule,
    /// The place of the text that breaks it, counted from 0 in the segment; for the last rule the
    /// number of the segment's texts.
    pub place: u64,
    /// The place of the earlier entry with the same client and nonce, where a call is repeated; 0 at
    /// every other rule.
    pub other: u64,
}
