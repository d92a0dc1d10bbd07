//! What is kept of a row for the end of its epoch.

use cp_tips::Tip;

/// The block of a row, and the block's tip after the row (this project's own).
#[derive(Clone, Copy, Debug)]
pub struct RowTip {
    /// The block's number.
    pub block: u64,
    /// Its tip.
    pub tip: Tip,
}
