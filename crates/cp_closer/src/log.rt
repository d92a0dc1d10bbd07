//! The log of an epoch.
ghost use Rattle.std.specs.Prelude.{◌≡◌, ◌++◌, ◌<◌, ◌≤◌, ◌^◌, [], length, map, flat_map, OnOk, IfOk};
ghost use Rattle.std.specs.List.{AllByRecursion};
ghost use Rattle.std.specs.BTreeMap.{btree_map_len};
ghost use Rattle.cp_chain.specs.Segment.{PartFits, SegmentFits};
ghost use Rattle.cp_chain.specs.Log.{log_text, log_part_text};
ghost use Rattle.cp_core.specs.Frozen.{part_view};
ghost use Rattle.cp_closer.specs.Taken.{put_all, texts_of};
ghost use Rattle.cp_bytes.specs.Fields.{part};
ghost use Rattle.cp_closer.specs.Closer.{segments, log_parts};
ghost use Rattle.cp_closer.specs.Kept.{PartIsSmall};
ghost use Rattle.cp_closer.specs.View.{texts_shown};

use crate::writing::{add_text, start_log, start_segment};
use cp_bytes::{Bytes, OutOfMemory};
use cp_core::{FrozenBlock, FrozenPart};
use std::alloc::Global;
use std::collections::BTreeMap;

/// Puts in a part's blocks.
fn add_part<'a>(
    order: &mut BTreeMap<u64, &'a FrozenBlock>,
    part: &'a FrozenPart,
) -> Result<(), OutOfMemory>
    ensures { OnOk result (texts_shown order.new.entries
        ≡ put_all (texts_shown order.old.entries) (texts_of (part_view part.now))) }
{
    for x in &part.blocks {
        order.insert(x.block, x)?;
    }
    Ok(())
}

/// The blocks of all parts, ascending.
fn in_order(alloc: Global, parts: &[FrozenPart]) -> Result<BTreeMap<u64, &FrozenBlock>, OutOfMemory>
    ensures { IfOk result (λ m. texts_shown m.entries
        ≡ put_all [] (flat_map texts_of (map part_view parts.now))) }
{
    let mut order = BTreeMap::new(alloc);
    for part in parts {
        add_part(&mut order, part)?;
    }
    Ok(order)
}

/// Appends these texts, each with its length.
fn add_texts(out: &mut Vec<u8>, texts: &[Bytes]) -> Result<(), OutOfMemory>
    requires { AllByRecursion PartFits texts.now }
    ensures { OnOk result (out.new.items ≡ out.old.items ++ flat_map part texts.now) }
{
    for text in texts {
        add_text(out, text.as_slice())?;
    }
    Ok(())
}

/// Appends a block and its segment.
fn add_block(out: &mut Vec<u8>, block: u64, x: &FrozenBlock) -> Result<(), OutOfMemory>
    requires { SegmentFits x.now.entries.items }
    ensures { OnOk result (out.new.items
        ≡ out.old.items ++ log_part_text (record { block = block; texts = x.now.entries.items })) }
{
    let count = x.entries.len() as u32;
    start_segment(out, block, count)?;
    add_texts(out, x.entries.as_slice())
}

/// The text of the log of these blocks.
fn written(
    alloc: Global,
    epoch: u64,
    order: &BTreeMap<u64, &FrozenBlock>,
) -> Result<Vec<u8>, OutOfMemory>
    requires few { btree_map_len order.now < 2 ^ 32 }
    requires fit { AllByRecursion (λ e. SegmentFits e.1) (texts_shown order.now.entries) }
    ensures { IfOk result (λ out. out.items
        ≡ log_text (record { epoch = epoch; parts = segments (texts_shown order.now.entries) })) }
{
    let count = order.len() as u32;
    let mut out = start_log(alloc, epoch, count)?;
    for (block, x) in order {
        add_block(&mut out, *block, x)?;
    }
    Ok(out)
}

/// The text of the log of these parts of the epoch.
pub(crate) fn log(alloc: Global, epoch: u64, parts: &[FrozenPart]) -> Result<Vec<u8>, OutOfMemory>
    requires { AllByRecursion PartIsSmall (map part_view parts.now) × (length parts.now ≤ 16) }
    ensures { IfOk result (λ out. out.items
        ≡ log_text (record { epoch = epoch; parts = log_parts (map part_view parts.now) })) }
{
    let order = in_order(alloc, parts)?;
    written(alloc, epoch, &order)
}
