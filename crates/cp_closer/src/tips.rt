//! The running tips of all blocks.
ghost use Rattle.std.specs.Prelude.{◌≡◌, ◌<◌, ◌^◌, flat_map, map, sum_by, OnOk, OnErr};
ghost use Rattle.std.specs.BTreeMap.{values};
ghost use Rattle.cp_core.specs.Frozen.{part_view};
ghost use Rattle.cp_closer.specs.Taken.{put_all, tips_of};
ghost use Rattle.cp_closer.specs.View.{IsPartly};

use cp_bytes::OutOfMemory;
use cp_core::FrozenPart;
use cp_tips::Tip;
use std::collections::BTreeMap;

/// Puts in the tips of a part's blocks. Where memory is wanted, the first ones may be in.
pub(crate) fn note_part(tips: &mut BTreeMap<u64, Tip>, part: &FrozenPart) -> Result<(), OutOfMemory>
    ensures noted { OnOk result (tips.new.entries
        ≡ put_all tips.old.entries (tips_of (part_view part.now))) }
    ensures partly { OnErr result (IsPartly tips.old.entries
        (tips_of (part_view part.now)) tips.new.entries) }
{
    for x in &part.blocks {
        tips.insert(x.block, x.after)?;
    }
    Ok(())
}

/// Puts in the tips of all parts' blocks. Where memory is wanted, the first ones may be in.
pub(crate) fn note_parts(
    tips: &mut BTreeMap<u64, Tip>,
    parts: &[FrozenPart],
) -> Result<(), OutOfMemory>
    ensures noted { OnOk result (tips.new.entries
        ≡ put_all tips.old.entries (flat_map tips_of (map part_view parts.now))) }
    ensures partly { OnErr result (IsPartly tips.old.entries
        (flat_map tips_of (map part_view parts.now)) tips.new.entries) }
{
    for part in parts {
        note_part(tips, part)?;
    }
    Ok(())
}

/// The number of all entries.
pub(crate) fn total(tips: &BTreeMap<u64, Tip>) -> u64
    requires { sum_by (λ t. t.count) (values tips.now) < 2 ^ 64 }
    ensures { result ≡ sum_by (λ t. t.count) (values tips.now) }
{
    tips.values().map(|t| t.count).sum()
}
