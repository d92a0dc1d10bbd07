//! The refusal of a leaf.

/// No leaf is left (this project's own).
#[derive(Clone, Copy, Debug, PartialEq, Eq)]
pub struct LeavesOver {
    /// How many leaves were found drawn.
    pub drawn: u64,
    /// How many there are to draw.
    pub limit: u64,
}
