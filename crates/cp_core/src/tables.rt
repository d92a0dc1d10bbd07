//! The tips of all blocks at an epoch's end.
ghost use Rattle.std.specs.Prelude.{◌≡◌, ◌∷◌, ◌++◌, List, [], length, OnOk, IfOk, get_or};
ghost use Rattle.cp_core.specs.Life.{RowItem, cut, shard_of};
ghost use Rattle.cp_core.specs.Tables.{HoldsTips, all_up_to, rows_up_to};
ghost use Rattle.cp_tips.specs.View.{tip_view};

use crate::running::tip_at;
use crate::{Item, Items, OutOfMemory};
use cp_statements::Entry;
use cp_tips::Tip;
use std::alloc::Global;
use std::collections::BTreeMap;

/// The block's tip at the end of the epoch `through`.
fn tip_in(shards: &[Items], block: u64, through: u64) -> Tip
    requires { length shards.now ≡ 16 }
    ensures { tip_view result ≡ cut (get_or shards.now (shard_of block) []) block through }
{
    tip_at(shards[(block % 16) as usize].as_slice(), block, through)
}

/// Adds the tip of the item's block, where the item is a row of an epoch up to `through`.
fn add_item(
    tips: &mut BTreeMap<u64, Tip>,
    shards: &[Items],
    item: &Item,
    through: u64,
) -> Result<(), OutOfMemory>
    requires { length shards.now ≡ 16 }
    ensures { OnOk result ((rest : List RowItem) → HoldsTips shards.now through rest tips.old.entries → HoldsTips shards.now through (rows_up_to through (item.now ∷ []) ++ rest) tips.new.entries) }
{
    let Item::Row { entry, .. } = item else {
        return Ok(());
    };
    let Ok(entry) = Entry::read(entry.as_slice()) else {
        return Ok(());
    };
    if entry.epoch > through {
        return Ok(());
    }
    tips.insert(entry.block, tip_in(shards, entry.block, through))?;
    Ok(())
}

/// Adds the tips of the blocks of a shard, from its last item to its first.
fn add_items(
    tips: &mut BTreeMap<u64, Tip>,
    shards: &[Items],
    items: &[Item],
    through: u64,
) -> Result<(), OutOfMemory>
    requires { length shards.now ≡ 16 }
    ensures { OnOk result ((rest : List RowItem) → HoldsTips shards.now through rest tips.old.entries → HoldsTips shards.now through (rows_up_to through items.now ++ rest) tips.new.entries) }
{
    for i in 0..items.len() {
        add_item(tips, shards, &items[items.len() - 1 - i], through)?;
    }
    Ok(())
}

/// The tips at the end of the epoch `through` of all blocks with an entry up to it.
pub(crate) fn tips_at(
    alloc: Global,
    shards: &[Items],
    through: u64,
) -> Result<BTreeMap<u64, Tip>, OutOfMemory>
    requires { length shards.now ≡ 16 }
    ensures { IfOk result (λ tips. HoldsTips shards.now through (all_up_to through shards.now) tips.entries) }
{
    let mut tips = BTreeMap::new(alloc);
    for i in 0..shards.len() {
        add_items(
            &mut tips,
            shards,
            shards[shards.len() - 1 - i].as_slice(),
            through,
        )?;
    }
    Ok(tips)
}
