//! Where a log fails its tables.
ghost use Rattle.std.specs.Prelude.{◌≡◌, ◌&&◌, true, map, None, is_none};
ghost use Rattle.std.specs.List.{AllByRecursion};
ghost use Rattle.cp_chain.specs.Log.{parts_ascend};
ghost use Rattle.cp_evidence.specs.Material.{log_fault, part_of};
ghost use Rattle.cp_audit.specs.Faults.{IsLeast, astray, lacks, least_two, log_fault_in};
ghost use Rattle.cp_audit.specs.Parts.{part_view, IsFramed, frame_in};

use crate::frames::Frames;
use crate::lookup::part_at;
use crate::part::Part;
use crate::walk::{count_at_place, place_from};

// The least block whose count rose without a segment that reaches, or that has one though its count
// didn't rise.
pub(crate) fn log_fault(frames: &Frames, parts: &[Part]) -> Option<u64>
    requires ascend { parts_ascend None (map part_view parts.now) ≡ true }
    requires framed { AllByRecursion (IsFramed frames.now) parts.now }
    ensures { result ≡ log_fault_in frames.now (map part_view parts.now) }
{
    least(first_lacking(frames, parts), first_astray(frames, parts))
}

// The lesser of two blocks, or the one that there is.
fn least(a: Option<u64>, b: Option<u64>) -> Option<u64>
    ensures { result ≡ least_two a b }
{
    match (a, b) {
        (None, b) => b,
        (Some(a), None) => Some(a),
        (Some(a), Some(b)) => Some(if a < b { a } else { b }),
    }
}

// The least block whose count rose and that has no segment, in one pass over both tables.
fn first_lacking(frames: &Frames, parts: &[Part]) -> Option<u64>
    requires { parts_ascend None (map part_view parts.now) ≡ true }
    ensures { IsLeast (lacks frames.now.before frames.now.after (map part_view parts.now)) result }
{
    // Where the block stands in the table before.
    let mut place = 0;
    for i in 0..frames.after.count() {
        let block = frames.after.block(i);
        place = place_from(&frames.before, place, block);
        let rose = count_at_place(&frames.before, place, block) < frames.after.count_at(i);
        if lacks(parts, block, rose) {
            return Some(block);
        }
    }
    None
}

// Whether the block has no segment though its count rose.
fn lacks(parts: &[Part], block: u64, rose: bool) -> bool
    requires { parts_ascend None (map part_view parts.now) ≡ true }
    ensures { result ≡ (is_none (part_of (map part_view parts.now) block) && rose) }
{
    rose && part_at(parts, block).is_none()
}

// The least block with a segment that doesn't reach.
fn first_astray(frames: &Frames, parts: &[Part]) -> Option<u64>
    requires ascend { parts_ascend None (map part_view parts.now) ≡ true }
    requires framed { AllByRecursion (IsFramed frames.now) parts.now }
    ensures { IsLeast (astray (frame_in frames.now) (map part_view parts.now)) result }
{
    for part in parts {
        if !part.reaches() {
            return Some(part.frame.block);
        }
    }
    None
}
