//! A block's part of a log.
ghost use Rattle.std.specs.Prelude.{◌≡◌, ◌++◌, ◌∷◌, ◌<◌, ◌≤◌, ◌^◌, [], length, IfSome, IfNone, OnOk};
ghost use Rattle.cp_bytes.specs.Fields.{part};
ghost use Rattle.cp_chain.specs.Log.{log_part_text};
ghost use Rattle.cp_chain.specs.Segment.{segment_text};
ghost use Rattle.cp_core.specs.Life.{rows_in};
ghost use Rattle.cp_shard.specs.Laws.{HasShortRows};
ghost use Rattle.cp_store.specs.Logs.{texts_at};
ghost use Rattle.std.specs.Prelude.{flat_map};

use cp_bytes::OutOfMemory;
use cp_closer::{add_text, start_segment};
use cp_core::Item;
use cp_statements::Entry;

// The item's text, where it is a row of the block and epoch.
#[tactic(auto, unfolding(cp_core::specs::Life::in_epoch, cp_core::specs::Life::rows_of))]
fn text_in(item: &Item, block: u64, epoch: u64) -> Option<&[u8]>
    requires { HasShortRows (item.now ∷ []) }
    ensures some { IfSome result (λ text. texts_at (item.now ∷ []) block epoch ≡ text.now ∷ []) }
    ensures none { IfNone result (texts_at (item.now ∷ []) block epoch ≡ []) }
    ensures short { IfSome result (λ text. length text.now < 2 ^ 32) }
{
    let Item::Row { entry, .. } = item else {
        return None;
    };
    let text = entry.as_slice();
    let Ok(entry) = Entry::read(text) else {
        return None;
    };
    if entry.block != block || entry.epoch != epoch {
        return None;
    }
    Some(text)
}

// 1 where the item is a row of the block and epoch, else 0.
fn count_of(item: &Item, block: u64, epoch: u64) -> usize
    requires { HasShortRows (item.now ∷ []) }
    ensures count { result ≡ length (texts_at (item.now ∷ []) block epoch) }
    ensures one { result ≤ 1 }
{
    match text_in(item, block, epoch) {
        Some(_) => 1,
        None => 0,
    }
}

// The number of the block's entries of the epoch.
fn count_in(items: &[Item], block: u64, epoch: u64) -> usize
    requires { HasShortRows items.now }
    ensures { result ≡ length (texts_at items.now block epoch) }
{
    let mut count = 0;
    for item in items {
        count += count_of(item, block, epoch);
    }
    count
}

// Appends the text of the item with its length, where the item is a row of the block and epoch.
fn add_item(out: &mut Vec<u8>, item: &Item, block: u64, epoch: u64) -> Result<(), OutOfMemory>
    requires { HasShortRows (item.now ∷ []) }
    ensures { OnOk result (out.new.items ≡ out.old.items ++ flat_map part
        (texts_at (item.now ∷ []) block epoch)) }
{
    match text_in(item, block, epoch) {
        Some(text) => add_text(out, text),
        None => Ok(()),
    }
}

// Appends the texts of the block's entries of the epoch, each with its length.
fn add_texts(out: &mut Vec<u8>, items: &[Item], block: u64, epoch: u64) -> Result<(), OutOfMemory>
    requires { HasShortRows items.now }
    ensures { OnOk result (out.new.items ≡ out.old.items ++ flat_map part
        (texts_at items.now block epoch)) }
{
    for item in items {
        add_item(out, item, block, epoch)?;
    }
    Ok(())
}

// Appends the block and the segment of its entries of the epoch.
pub(crate) fn add_segment(
    out: &mut Vec<u8>,
    items: &[Item],
    block: u64,
    epoch: u64,
) -> Result<(), OutOfMemory>
    requires short { HasShortRows items.now }
    requires few { length (rows_in items.now) < 2 ^ 32 }
    ensures { OnOk result (out.new.items ≡ out.old.items ++ log_part_text
        (record { block = block; texts = texts_at items.now block epoch })) }
{
    let count = count_in(items, block, epoch) as u32;
    start_segment(out, block, count)?;
    add_texts(out, items, block, epoch)
}
