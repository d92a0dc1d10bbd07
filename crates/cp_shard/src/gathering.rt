//! What each block gained in an epoch.
ghost use Rattle.std.specs.Prelude.{ℕ, ◌≡◌, ◌≤◌, ◌+◌, ◌==◌, ◌++◌, ◌∷◌, [], List, cond, length, slice_range, Some, OnOk, IfOk};
ghost use Rattle.std.specs.BTreeMap.{values, IsOrdered};
ghost use Rattle.std.specs.Ordering.{nat_cmp};
ghost use Rattle.cp_core.specs.declared.item.Item.{Item};
ghost use Rattle.cp_shard.specs.Gathered.{held_at, with_text, Gathers, IsNextRow, AreNextRows, IsGathered};

use crate::row_tip::RowTip;
use cp_bytes::{Bytes, OutOfMemory};
use cp_core::{FrozenBlock, Item};
use std::alloc::Global;
use std::collections::BTreeMap;

// Adds the text of a row to its block, and sets the block's tip. Where memory is wanted, the tip may
// be set already.
fn add_text(
    alloc: Global,
    blocks: &mut BTreeMap<u64, FrozenBlock>,
    row_tip: &RowTip,
    text: Bytes,
) -> Result<(), OutOfMemory>
    ensures { OnOk result ((b : ℕ) → held_at blocks.new b ≡ cond (row_tip.now.block == b)
        (Some (with_text (held_at blocks.old b) row_tip.now text)) (held_at blocks.old b)) }
{
    match blocks.get_mut(&row_tip.block) {
        Some(gained) => {
            gained.after = row_tip.tip;
            gained.entries.push(text)?;
        }
        None => {
            let mut entries = Vec::new(alloc);
            entries.push(text)?;
            let gained = FrozenBlock {
                block: row_tip.block,
                after: row_tip.tip,
                entries,
            };
            blocks.insert(row_tip.block, gained)?;
        }
    }
    Ok(())
}

// Adds a row with what is kept of it.
fn add_row(
    alloc: Global,
    blocks: &mut BTreeMap<u64, FrozenBlock>,
    row: &Item,
    row_tip: &RowTip,
) -> Result<(), OutOfMemory>
    ensures { OnOk result ((k n : ℕ) (front : List Item) → IsNextRow k n front row.now row_tip.now
        → Gathers front n blocks.old → Gathers (front ++ row.now ∷ []) n blocks.new) }
{
    let Item::Row { entry, .. } = row else {
        return Ok(());
    };
    let text = entry.copy(alloc)?;
    add_text(alloc, blocks, row_tip, text)?;
    Ok(())
}

// Adds the rows of an epoch with what is kept of them.
fn add_rows(
    alloc: Global,
    blocks: &mut BTreeMap<u64, FrozenBlock>,
    rows: &[Item],
    row_tips: &[RowTip],
) -> Result<(), OutOfMemory>
    requires { length row_tips.now ≡ length rows.now }
    ensures { OnOk result ((k n : ℕ) (front : List Item)
        → AreNextRows k n front rows.now row_tips.now → Gathers front n blocks.old → Gathers
        (front ++ rows.now) n blocks.new) }
{
    for i in 0..rows.len() {
        add_row(alloc, blocks, &rows[i], &row_tips[i])?;
    }
    Ok(())
}

// The blocks, ascending.
fn listed(
    alloc: Global,
    blocks: BTreeMap<u64, FrozenBlock>,
) -> Result<Vec<FrozenBlock>, OutOfMemory>
    ensures listed { IfOk result (λ list. list.items ≡ values blocks) }
    ensures ascending { OnOk result (IsOrdered nat_cmp blocks) }
{
    let mut list = Vec::with_capacity(alloc, blocks.len())?;
    list.extend(blocks.into_values())?;
    Ok(list)
}

// What each block gained by the rows of an epoch, of which this is kept; ascending by block.
fn gather_rows(
    alloc: Global,
    rows: &[Item],
    row_tips: &[RowTip],
) -> Result<Vec<FrozenBlock>, OutOfMemory>
    requires { length row_tips.now ≡ length rows.now }
    ensures { IfOk result (λ list. IsGathered list.items rows.now row_tips.now) }
{
    let mut blocks = BTreeMap::new(alloc);
    add_rows(alloc, &mut blocks, rows, row_tips)?;
    let list = listed(alloc, blocks)?;
    Ok(list)
}

/// The same of an epoch's rows among the items of a shard: there are `start` rows before them, `end`
/// with them, and so many freezes before them.
pub fn gather(
    alloc: Global,
    items: &[Item],
    row_tips: &[RowTip],
    start: usize,
    end: usize,
    freezes: usize,
) -> Result<Vec<FrozenBlock>, OutOfMemory>
    requires order { start ≤ end }
    requires items { end + freezes ≤ length items.now }
    requires row_tips { end ≤ length row_tips.now }
    ensures { IfOk result (λ list. IsGathered list.items
        (slice_range items.now (start + freezes) (end + freezes))
        (slice_range row_tips.now start end)) }
{
    let rows = &items[start + freezes..end + freezes];
    let list = gather_rows(alloc, rows, &row_tips[start..end])?;
    Ok(list)
}
