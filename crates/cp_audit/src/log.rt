//! The log of an epoch, read.
ghost use Rattle.std.specs.Prelude.{◌≡◌, option_map, IfOk};
ghost use Rattle.cp_audit.specs.Parts.{ReadsWholeLog, TakesCount};

use crate::frames::Frames;
use crate::part::Part;
use crate::taking::take_parts;
use cp_bytes::{Cut, OutOfMemory};
use cp_statements::{take_epoch, take_tag};
use std::alloc::Global;

// The parts of the log that all of the bytes spell, where it is one of the epoch; none otherwise.
pub(crate) fn read_log<'a>(
    alloc: Global,
    frames: &Frames<'a>,
    bytes: &'a [u8],
) -> Result<Option<Vec<Part<'a>>>, OutOfMemory>
    ensures { ReadsWholeLog frames.now bytes.now result }
{
    let mut cut = Cut::new(bytes);
    let Some(count) = take_count(frames.epoch, &mut cut) else {
        return Ok(None);
    };
    let Some(parts) = take_parts(alloc, frames, count, &mut cut)? else {
        return Ok(None);
    };
    match cut.end() {
        Ok(()) => Ok(Some(parts)),
        Err(_) => Ok(None),
    }
}

// The number of parts of a log of the epoch, whose tag and epoch stand before it; none where they
// don't.
fn take_count(epoch: u64, cut: &mut Cut) -> Option<u32>
    ensures { TakesCount epoch cut.old cut.new result }
{
    let Ok(()) = take_tag(cut, b"CPl1") else {
        return None;
    };
    let Ok(of) = take_epoch(cut) else {
        return None;
    };
    if of != epoch {
        return None;
    }
    let Ok(count) = cut.be_u32() else {
        return None;
    };
    Some(count)
}
