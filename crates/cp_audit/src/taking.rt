//! The segments of a log, as they are read.
ghost use Rattle.std.specs.Prelude.{◌≡◌, option_map, None, Ok, IfOk};
ghost use Rattle.cp_chain.specs.Log.{comes_behind, log_parts_at};
ghost use Rattle.cp_chain.specs.Segment.{segment_at, segment_text};
ghost use Rattle.cp_audit.specs.Parts.{ReadsPart, ReadsParts, TakesBlock};

use crate::frames::Frames;
use crate::part::{Part, heads_of, texts_of};
use cp_bytes::{Cut, OutOfMemory};
use cp_chain::Segment;
use std::alloc::Global;

// The segment of the block at the front of what is left; none where there is no segment.
pub(crate) fn take_part<'a>(
    alloc: Global,
    frames: &Frames<'a>,
    block: u64,
    cut: &mut Cut<'a>,
) -> Result<Option<Part<'a>>, OutOfMemory>
    ensures { ReadsPart frames.now block cut.old cut.new result }
{
    let rest = cut.rest();
    let Ok(segment) = Segment::take(cut) else {
        return Ok(None);
    };
    let bytes = segment_bytes(rest, cut.rest(), &segment);
    let frame = frames.at(block);
    let texts = texts_of(alloc, &segment)?;
    let heads = heads_of(alloc, &frame.before.head, &segment)?;
    Ok(Some(Part {
        frame,
        bytes,
        segment,
        texts,
        heads,
    }))
}

// The bytes of the segment that was read at their front, where these are left behind it.
fn segment_bytes<'a>(bytes: &'a [u8], left: &[u8], segment: &Segment) -> &'a [u8]
    requires { segment_at bytes.now ≡ Ok (segment.now, left.now) }
    ensures { result.now ≡ segment_text segment.now }
{
    &bytes[..bytes.len() - left.len()]
}

// The block at the front of what is left, which comes behind the last one; none where it doesn't.
fn take_block(last: Option<u64>, cut: &mut Cut) -> Option<u64>
    ensures { TakesBlock last cut.old cut.new result }
{
    let Ok(block) = cut.be_u64() else {
        return None;
    };
    if comes_behind(last, block) {
        Some(block)
    } else {
        None
    }
}

// Whether the block is greater than the last one.
fn comes_behind(last: Option<u64>, block: u64) -> bool
    ensures { result ≡ comes_behind last block }
{
    match last {
        None => true,
        Some(before) => before < block,
    }
}

// So many blocks and their segments, in ascending order; none where they aren't there.
pub(crate) fn take_parts<'a>(
    alloc: Global,
    frames: &Frames<'a>,
    count: u32,
    cut: &mut Cut<'a>,
) -> Result<Option<Vec<Part<'a>>>, OutOfMemory>
    ensures { ReadsParts frames.now count cut.old cut.new result }
{
    let mut parts = Vec::new(alloc);
    let mut last = None;
    for _ in 0..count {
        let Some(block) = take_block(last, cut) else {
            return Ok(None);
        };
        let Some(part) = take_part(alloc, frames, block, cut)? else {
            return Ok(None);
        };
        parts.push(part)?;
        last = Some(block);
    }
    Ok(Some(parts))
}
