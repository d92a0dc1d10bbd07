//! Whether a segment leads from tip to tip, and whether an attestation stands in it.
ghost use Rattle.std.specs.Prelude.{◌≡◌};
ghost use Rattle.cp_statements.specs.View.{attestation_view, entry_view};
ghost use Rattle.cp_chain.specs.Standing.{reaches, says_the_same, stands};
ghost use Rattle.cp_chain.specs.View.{frame_view};

use crate::head::head_behind;
use crate::{Frame, Segment};
use cp_bytes::head;
use cp_statements::{Attestation, Entry};

/// Whether the segment leads from the tip before to the tip after: it has as many texts as the counts
/// differ, at least one, and their chain ends in the head after. Each text is hashed once, and none is
/// copied.
#[tactic(auto, unfolding(crate::specs::Standing::reaches))]
pub fn reaches(frame: &Frame, segment: &Segment) -> bool
    ensures { result ≡ reaches (frame_view frame.now) segment.now }
{
    let count = u64::from(segment.count());
    let after = frame.after.count;
    if count == 0 || after < count || after - count != frame.before.count {
        return false;
    }
    head_behind(&frame.before.head, segment, count) == frame.after.head
}

/// Whether the attestation is of this segment: its position is between the counts, the text there is
/// an entry that says what it says, and the chain has its two heads before and behind that text. The
/// texts before it are hashed once each, where the entry says the same.
#[tactic(auto, unfolding(crate::specs::Standing::stands))]
pub fn stands(frame: &Frame, segment: &Segment, a: &Attestation) -> bool
    ensures { result ≡ stands (frame_view frame.now) segment.now (attestation_view a.now) }
{
    if a.position < frame.before.count || a.position >= frame.after.count {
        return false;
    }
    let place = a.position - frame.before.count;
    let Some(text) = segment.get(place) else {
        return false;
    };
    match Entry::read(text) {
        Ok(entry) if says_the_same(a, &entry) => {
            let prev = head_behind(&frame.before.head, segment, place);
            a.prev == prev && a.head == head(&prev, text)
        }
        _ => false,
    }
}

/// Whether the entry says what the attestation says.
pub fn says_the_same(a: &Attestation, entry: &Entry) -> bool
    ensures { result ≡ says_the_same (attestation_view a.now) (entry_view entry.now) }
{
    entry.kind == a.kind
        && entry.epoch == a.epoch
        && entry.block == a.block
        && entry.position == a.position
        && entry.client == a.client
        && entry.nonce == a.nonce
        && entry.version == a.version
        && entry.content == a.content
}
