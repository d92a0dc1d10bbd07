//! The log of an epoch, plainly from the shards' items.
ghost use Rattle.std.specs.Prelude.{ℕ, ◌≡◌, ◌∷◌, ◌++◌, ◌<◌, ◌≤◌, ◌^◌, List, [], length, map, get_or, flat_map, OnOk, IfOk};
ghost use Rattle.cp_chain.specs.Log.{log_text, log_part_text};
ghost use Rattle.cp_core.specs.Frozen.{blocks_in};
ghost use Rattle.cp_core.specs.Life.{RowItem, rows_in};
ghost use Rattle.cp_core.specs.Sealing.{blocks_of};
ghost use Rattle.cp_shard.specs.Laws.{HasShortRows};
ghost use Rattle.cp_store.specs.Logs.{part_at, rows_at};

use crate::OutOfMemory;
use crate::segment::add_segment;
use cp_closer::start_log;
use cp_core::{Item, Items};
use cp_statements::Entry;
use std::alloc::Global;
use std::collections::BTreeSet;

// Adds the item's block, where the item is a row of the epoch.
fn add_item(blocks: &mut BTreeSet<u64>, item: &Item, epoch: u64) -> Result<(), OutOfMemory>
    ensures { OnOk result ((rest : List RowItem) → blocks.old.keys ≡ blocks_of rest
        → blocks.new.keys ≡ blocks_of (rows_at epoch (item.now ∷ []) ++ rest)) }
{
    let Item::Row { entry, .. } = item else {
        return Ok(());
    };
    let Ok(entry) = Entry::read(entry.as_slice()) else {
        return Ok(());
    };
    if entry.epoch != epoch {
        return Ok(());
    }
    blocks.insert(entry.block)?;
    Ok(())
}

// Adds the blocks of a shard's entries of the epoch, from its last item to its first.
fn add_items(blocks: &mut BTreeSet<u64>, items: &[Item], epoch: u64) -> Result<(), OutOfMemory>
    ensures { OnOk result ((rest : List RowItem) → blocks.old.keys ≡ blocks_of rest
        → blocks.new.keys ≡ blocks_of (rows_at epoch items.now ++ rest)) }
{
    for i in 0..items.len() {
        add_item(blocks, &items[items.len() - 1 - i], epoch)?;
    }
    Ok(())
}

// The blocks with an entry of the epoch, ascending.
fn blocks_at(alloc: Global, shards: &[Items], epoch: u64) -> Result<BTreeSet<u64>, OutOfMemory>
    ensures { IfOk result (λ blocks. blocks.keys ≡ blocks_in (flat_map rows_in shards.now) epoch) }
{
    let mut blocks = BTreeSet::new(alloc);
    for i in 0..shards.len() {
        add_items(&mut blocks, shards[shards.len() - 1 - i].as_slice(), epoch)?;
    }
    Ok(blocks)
}

// Appends the segments of these blocks.
fn add_segments(
    out: &mut Vec<u8>,
    blocks: &BTreeSet<u64>,
    shards: &[Items],
    epoch: u64,
) -> Result<(), OutOfMemory>
    requires sixteen { length shards.now ≡ 16 }
    requires short { (k : ℕ) → k < 16 → HasShortRows (get_or shards.now k []) }
    requires few { (k : ℕ) → k < 16 → length (rows_in (get_or shards.now k [])) ≤ 2 ^ 27 }
    ensures { OnOk result (out.new.items ≡ out.old.items ++ flat_map log_part_text
        (map (part_at shards.now epoch) blocks.now.keys)) }
{
    for block in blocks {
        add_segment(
            out,
            shards[(*block % 16) as usize].as_slice(),
            *block,
            epoch,
        )?;
    }
    Ok(())
}

// The log's text, of sixteen shards with at most 2^27 rows each.
pub(crate) fn log(alloc: Global, shards: &[Items], epoch: u64) -> Result<Vec<u8>, OutOfMemory>
    requires sixteen { length shards.now ≡ 16 }
    requires short { (k : ℕ) → k < 16 → HasShortRows (get_or shards.now k []) }
    requires few { (k : ℕ) → k < 16 → length (rows_in (get_or shards.now k [])) ≤ 2 ^ 27 }
    ensures { IfOk result (λ out. out.items ≡ log_text
        (record {
          epoch = epoch;
          parts = map (part_at shards.now epoch)
              (blocks_in (flat_map rows_in shards.now) epoch);
        })) }
{
    let blocks = blocks_at(alloc, shards, epoch)?;
    let count = blocks.len() as u32;
    let mut out = start_log(alloc, epoch, count)?;
    add_segments(&mut out, &blocks, shards, epoch)?;
    Ok(out)
}
