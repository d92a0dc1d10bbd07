//! One block's segment of a log.
ghost use Rattle.std.specs.Prelude.{◌≡◌, ◌<◌, ◌≤◌, length, map, take, IfOk};
ghost use Rattle.cp_bytes.specs.Hashes.{head_after};
ghost use Rattle.cp_statements.specs.View.{attestation_view};
ghost use Rattle.cp_chain.specs.Rules.{text_at};
ghost use Rattle.cp_chain.specs.Segment.{segment_text};
ghost use Rattle.cp_chain.specs.Standing.{reaches, stands};
ghost use Rattle.cp_chain.specs.View.{frame_view};
ghost use Rattle.cp_audit.specs.Heads.{heads_from, stands_at};

use cp_bytes::{OutOfMemory, head};
use cp_chain::{Frame, Segment, says_the_same};
use cp_statements::{Attestation, Entry};
use std::alloc::Global;

// A block's segment, where it stands and the heads of its chain, so that each text is hashed once.
#[derive(Drop)]
pub(crate) struct Part<'a> {
    pub(crate) frame: Frame<'a>,
    // Its own bytes, the number of its texts in front.
    pub(crate) bytes: &'a [u8],
    pub(crate) segment: Segment<'a>,
    // Its texts, so that one is found by its place.
    pub(crate) texts: Vec<&'a [u8]>,
    // The head before each text, and the one after the last.
    pub(crate) heads: Vec<[u8; 32]>,
    ghost spelled: { segment_text segment ≡ bytes.now },
    ghost listed: { map (λ t. t.now) texts.items ≡ segment },
    ghost hashed: { heads.items ≡ heads_from frame.before.head segment },
}

impl<'a> Part<'a> {
    ghost use Rattle.cp_audit.specs.Parts.{is_at_place, stands_in};

    // The text at the place.
    fn text(&self, place: u32) -> &'a [u8]
        requires { place < length self.now.segment }
        ensures { result.now ≡ text_at self.now.segment place }
    {
        let texts = self.texts.as_slice();
        texts[place as usize]
    }

    // The head behind the first `place` texts.
    fn head_behind(&self, place: u32) -> [u8; 32]
        requires { place ≤ length self.now.segment }
        ensures { result ≡ head_after self.now.frame.before.head (take place self.now.segment) }
    {
        let heads = self.heads.as_slice();
        heads[place as usize]
    }

    // Whether the segment leads from the tip before to the tip after.
    #[tactic(auto, unfolding(cp_chain::specs::Standing::reaches))]
    pub(crate) fn reaches(&self) -> bool
        ensures { result ≡ reaches (frame_view self.now.frame) self.now.segment }
    {
        let texts = self.segment.count();
        let count = u64::from(texts);
        let after = self.frame.after.count;
        if count == 0 || after < count || after - count != self.frame.before.count {
            return false;
        }
        self.head_behind(texts) == self.frame.after.head
    }

    // Whether the attestation is of this segment.
    #[tactic(auto, unfolding(cp_chain::specs::Standing::stands))]
    pub(crate) fn stands(&self, a: &Attestation) -> bool
        ensures { result ≡ stands_in self.now a.now }
    {
        if a.position < self.frame.before.count || a.position >= self.frame.after.count {
            return false;
        }
        self.stands_at(a.position - self.frame.before.count, a)
    }

    // Whether the attestation is of the text at the place.
    fn stands_at(&self, place: u64, a: &Attestation) -> bool
        ensures { result ≡ is_at_place self.now a.now place }
    {
        if place >= u64::from(self.segment.count()) {
            return false;
        }
        let place = place as u32;
        match Entry::read(self.text(place)) {
            Ok(entry) => {
                says_the_same(a, &entry)
                    && a.prev == self.head_behind(place)
                    && a.head == self.head_behind(place + 1)
            }
            Err(_) => false,
        }
    }
}

// The texts of the segment, in order.
pub(crate) fn texts_of<'a>(
    alloc: Global,
    segment: &Segment<'a>,
) -> Result<Vec<&'a [u8]>, OutOfMemory>
    ensures { IfOk result (λ v. map (λ t. t.now) v.items ≡ segment.now) }
{
    let mut texts = Vec::new(alloc);
    for text in segment.texts() {
        texts.push(text)?;
    }
    Ok(texts)
}

// The head before each text of the segment, from the first one on, and the last one.
pub(crate) fn heads_of(
    alloc: Global,
    first: &[u8; 32],
    segment: &Segment,
) -> Result<Vec<[u8; 32]>, OutOfMemory>
    ensures { IfOk result (λ v. v.items ≡ heads_from first.now segment.now) }
{
    let mut heads = Vec::new(alloc);
    let mut last = *first;
    for text in segment.texts() {
        heads.push(last)?;
        last = head(&last, text);
    }
    heads.push(last)?;
    Ok(heads)
}
