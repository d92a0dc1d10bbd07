//! The first block that went back from one table to the next.
ghost use Rattle.std.specs.Prelude.{◌≡◌, Some, IsTrue, MatchOption};
ghost use Rattle.cp_tips.specs.Rows.{tip_of};
ghost use Rattle.cp_tips.specs.Table.{ascends, regressed_tip, NoneRegressed, IsFirstRegress};

use crate::TableText;
use crate::rows::{block_of, count_of, tip_of};

/// The least block that went back from the table before to the one after: its row vanished, its count
/// fell, or its row changed at an equal count. One pass over both tables, which takes no memory.
pub fn first_regress(before: &TableText<'_>, after: &TableText<'_>) -> Option<u64>
    requires before { IsTrue (ascends before.now) }
    requires after { IsTrue (ascends after.now) }
    ensures { MatchOption result (NoneRegressed before.now after.now) (λ block. IsFirstRegress before.now after.now block) }
{
    let mut old = before.rows();
    let mut new = after.rows();
    while let Some((row, others)) = old.split_first() {
        let block = block_of(row);
        let Some((other, later)) = new.split_first() else {
            return Some(block);
        };
        let next = block_of(other);
        if next < block {
            new = later;
        } else if next == block && !went_back(row, other) {
            old = others;
        } else {
            return Some(block);
        }
    }
    None
}

// Whether a block went back from its row before to its row after.
fn went_back(before: &[u8; 88], after: &[u8; 88]) -> bool
    ensures { result ≡ regressed_tip (tip_of before.now) (Some (tip_of after.now)) }
{
    let old = count_of(before);
    let new = count_of(after);
    new < old || new == old && tip_of(before) != tip_of(after)
}
