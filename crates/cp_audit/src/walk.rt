//! A table walked up by blocks that ascend.
ghost use Rattle.std.specs.Prelude.{◌≡◌, ◌≤◌, true, length};
ghost use Rattle.cp_tips.specs.Table.{ascends, row};
ghost use Rattle.cp_audit.specs.Walks.{AreBelow, IsPlace};

use cp_tips::TableText;

// The place of the first row from `from` on whose block isn't below this one; the number of rows
// where there is none. All rows before `from` are below it.
pub(crate) fn place_from(table: &TableText, from: usize, block: u64) -> usize
    requires within { from ≤ length table.now }
    requires below { AreBelow table.now block from }
    ensures { IsPlace table.now block result }
{
    let rows = table.count();
    for place in from..rows {
        if table.block(place) >= block {
            return place;
        }
    }
    rows
}

// The block's count, which stands at that place, or is 0.
pub(crate) fn count_at_place(table: &TableText, place: usize, block: u64) -> u64
    requires up { ascends table.now ≡ true }
    requires place { IsPlace table.now block place }
    ensures { result ≡ (row table.now block).count }
{
    if place == table.count() {
        return 0;
    }
    if table.block(place) == block {
        return table.count_at(place);
    }
    0
}
