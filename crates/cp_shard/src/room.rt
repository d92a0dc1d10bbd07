//! Memory for a new call, and the end of a run.
ghost use Rattle.std.specs.Prelude.{ℕ, ◌≡◌, ◌≤◌, ◌+◌, ◌<◌, ◌^◌, length, Option, Some, None, IsSome, OnOk};
ghost use Rattle.std.specs.Vec.{vec_len, vec_capacity};
ghost use Rattle.std.specs.BTreeMap as tree;
ghost use Rattle.std.specs.Ordering.{nat_cmp};
ghost use Rattle.cp_shard.specs.Standings.{tip_at, run_at};
ghost use Rattle.cp_shard.specs.Contents.{IsLiveRun};
ghost use Rattle.cp_shard.specs.Released.{IsReleased};

use crate::call::Call;
use crate::row_tip::RowTip;
use crate::standing::{Standing, reserve};
use cp_bytes::OutOfMemory;
use cp_core::Item;
use cp_pages::{Pool, Run};
use std::collections::BTreeMap;

/// Takes the memory that so many items, the tip of a row, a call and a block's standing want. It
/// changes none of them.
pub fn make_room(
    items: &mut Vec<Item>,
    additional: usize,
    row_tips: &mut Vec<RowTip>,
    calls: &mut Vec<Call>,
    standings: &mut BTreeMap<u64, Standing>,
    block: u64,
) -> Result<(), OutOfMemory>
    ensures items { items.new.items ≡ items.old.items }
    ensures items_len { vec_len items.new ≡ vec_len items.old }
    ensures capacity { vec_capacity items.old ≤ vec_capacity items.new }
    ensures room { OnOk result (length items.new.items + additional ≤ vec_capacity items.new) }
    ensures fits { OnOk result (length items.new.items + additional < 2 ^ 64) }
    ensures row_tips { row_tips.new.items ≡ row_tips.old.items }
    ensures row_tip_room { OnOk result (vec_len row_tips.new < vec_capacity row_tips.new) }
    ensures calls { calls.new.items ≡ calls.old.items }
    ensures calls_len { vec_len calls.new ≡ vec_len calls.old }
    ensures call_room { OnOk result (vec_len calls.new < vec_capacity calls.new) }
    ensures tips { (b : ℕ) → tip_at standings.new b ≡ tip_at standings.old b }
    ensures runs { (b : ℕ) → run_at standings.new b ≡ run_at standings.old b }
    ensures standing { OnOk result (IsSome (tree.get nat_cmp standings.new block)) }
{
    items.reserve(additional)?;
    row_tips.reserve(1)?;
    calls.reserve(1)?;
    reserve(standings, block)?;
    Ok(())
}

/// Gives the pages of a run back, if there is one.
pub fn release(pool: &mut Pool, run: Option<Run>)
    requires { IsLiveRun pool.old run }
    ensures { IsReleased pool.old pool.new run }
{
    if let Some(run) = run {
        pool.give_back(run);
    }
}
