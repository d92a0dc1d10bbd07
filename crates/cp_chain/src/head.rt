//! The head of a block's chain within a segment.
ghost use Rattle.std.specs.Prelude.{◌≡◌, take};
ghost use Rattle.cp_bytes.specs.Hashes.{head_after};

use crate::Segment;
use cp_bytes::head;

/// The head behind the first `n` texts of the segment. Each is hashed once.
pub(crate) fn head_behind(before: &[u8; 32], segment: &Segment, n: u64) -> [u8; 32]
    ensures { result ≡ head_after before.now (take n segment.now) }
{
    let mut last = *before;
    for text in segment.texts().take(n as usize) {
        last = head(&last, text);
    }
    last
}
