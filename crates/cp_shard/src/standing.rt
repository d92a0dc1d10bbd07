//! How the blocks of a shard stand.
ghost use Rattle.std.specs.Prelude.{ℕ, ◌≡◌, ◌==◌, cond, Some, IsSome, OnOk};
ghost use Rattle.std.specs.BTreeMap as tree;
ghost use Rattle.std.specs.Ordering.{nat_cmp};
ghost use Rattle.cp_tips.specs.View.{tip_view};
ghost use Rattle.cp_shard.specs.Standings.{tip_at, run_at};

use cp_bytes::OutOfMemory;
use cp_pages::Run;
use cp_tips::Tip;
use std::collections::BTreeMap;

/// A block's tip, and the run of its latest content once there is one.
#[derive(Drop)]
pub struct Standing {
    /// The tip after the block's latest entry.
    pub tip: Tip,
    /// Where the pool has the content of its latest put.
    pub run: Option<Run>,
}

/// The tip of a block.
pub fn tip_in(standings: &BTreeMap<u64, Standing>, block: u64) -> Tip
    ensures { tip_view result ≡ tip_at standings.now block }
{
    match standings.get(&block) {
        Some(standing) => standing.tip,
        None => Tip::fresh(block),
    }
}

/// Makes the place of a block, which changes no tip and no run.
pub fn reserve(standings: &mut BTreeMap<u64, Standing>, block: u64) -> Result<(), OutOfMemory>
    ensures tips { (b : ℕ) → tip_at standings.new b ≡ tip_at standings.old b }
    ensures runs { (b : ℕ) → run_at standings.new b ≡ run_at standings.old b }
    ensures ok { OnOk result (IsSome (tree.get nat_cmp standings.new block)) }
{
    if !standings.contains_key(&block) {
        standings.insert(
            block,
            Standing {
                tip: Tip::fresh(block),
                run: None,
            },
        )?;
    }
    Ok(())
}

/// Sets the tip of a block that has a place.
pub fn set_tip(standings: &mut BTreeMap<u64, Standing>, block: u64, tip: Tip)
    requires { IsSome (tree.get nat_cmp standings.old block) }
    ensures tips { (b : ℕ) → tip_at standings.new b ≡ cond (block == b) (tip_view tip)
        (tip_at standings.old b) }
    ensures runs { (b : ℕ) → run_at standings.new b ≡ run_at standings.old b }
    ensures place { IsSome (tree.get nat_cmp standings.new block) }
{
    if let Some(standing) = standings.get_mut(&block) {
        standing.tip = tip;
    }
}

/// Sets the run of a block that has a place, and hands out the one that it had.
pub fn set_run(standings: &mut BTreeMap<u64, Standing>, block: u64, run: Run) -> Option<Run>
    requires { IsSome (tree.get nat_cmp standings.old block) }
    ensures old { result ≡ run_at standings.old block }
    ensures tips { (b : ℕ) → tip_at standings.new b ≡ tip_at standings.old b }
    ensures runs { (b : ℕ) → run_at standings.new b ≡ cond (block == b) (Some run)
        (run_at standings.old b) }
{
    match standings.get_mut(&block) {
        Some(standing) => standing.run.replace(run),
        None => None,
    }
}
