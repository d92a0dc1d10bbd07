//! The first fault of a segment. The bytes are its frame and the segment: the store of 32 bytes,
//! the epoch and the block of eight, the tips before and after it, each a count and a version of
//! eight bytes and a content's hash and a head of 32, and the families list behind its length of
//! four.

use cp_bytes::{Cut, OutOfMemory, Short};
use cp_chain::{Fault, Frame, Segment, first_fault_by_index};
use cp_families::Families;
use cp_statements::Malformed;
use cp_tips::Tip;
use std::alloc::Global;

// A tip: its count, version, content and head.
fn take_tip(cut: &mut Cut<'_>) -> Result<Tip, Short> {
    Ok(Tip {
        count: cut.be_u64()?,
        version: cut.be_u64()?,
        content: cut.array32()?,
        head: cut.array32()?,
    })
}

// The frame of a segment.
fn take_frame<'a>(cut: &mut Cut<'a>) -> Result<Frame<'a>, Malformed> {
    Ok(Frame {
        store: cut.array32()?,
        epoch: cut.be_u64()?,
        block: cut.be_u64()?,
        before: take_tip(cut)?,
        after: take_tip(cut)?,
        families: Families::read(cut.part()?)?,
    })
}

// A frame and, behind it, the segment.
fn framed(bytes: &[u8]) -> Result<(Frame<'_>, Segment<'_>), Malformed> {
    let mut cut = Cut::new(bytes);
    let frame = take_frame(&mut cut)?;
    let segment = Segment::read(cut.take_rest())?;
    Ok((frame, segment))
}

/// `legal`, or the first fault of the segment; `malformed` where frame or segment doesn't read.
pub fn answer_to_chain(alloc: Global, bytes: &[u8]) -> Result<String, OutOfMemory> {
    let (frame, segment) = match framed(bytes) {
        Ok(framed) => framed,
        Err(Malformed { at }) => return format!(in alloc; "malformed {at}"),
    };
    match first_fault_by_index(alloc, &frame, &segment)? {
        None => String::from_str(alloc, "legal"),
        Some(Fault { rule, place, other }) => {
            let number = rule.number();
            format!(in alloc; "rule {number} place {place} other {other}")
        }
    }
}
