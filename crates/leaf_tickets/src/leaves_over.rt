//! The refusal of a draw.

/// No number below the limit is left.
#[derive(Clone, Copy, Debug, PartialEq, Eq)]
pub struct LeavesOver {
    /// The counter as the call found it, no less than the limit.
    pub drawn: u64,
    /// The limit that the call was given.
    pub limit: u64,
}
