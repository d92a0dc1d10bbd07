//! How the text of a log is written, piece by piece.
ghost use Rattle.std.specs.Prelude.{◌≡◌, ◌++◌, ◌<◌, ◌^◌, length, OnOk, IfOk};
ghost use Rattle.cp_bytes.specs.Fields.{part};
ghost use Rattle.cp_closer.specs.Writing.{IsLogStart, IsSegmentStart};

use cp_bytes::OutOfMemory;
use std::alloc::Global;

/// The text of a log of this epoch and so many blocks, as far as its first block.
pub fn start_log(alloc: Global, epoch: u64, blocks: u32) -> Result<Vec<u8>, OutOfMemory>
    ensures { IfOk result (λ out. IsLogStart epoch blocks out.items) }
{
    let mut out = Vec::from_slice(alloc, b"CPl1")?;
    out.extend_from_slice(&epoch.to_be_bytes())?;
    out.extend_from_slice(&blocks.to_be_bytes())?;
    Ok(out)
}

/// Appends a block and the number of its texts, which come next.
pub fn start_segment(out: &mut Vec<u8>, block: u64, texts: u32) -> Result<(), OutOfMemory>
    ensures { OnOk result (IsSegmentStart block texts out.old.items out.new.items) }
{
    out.extend_from_slice(&block.to_be_bytes())?;
    out.extend_from_slice(&texts.to_be_bytes())?;
    Ok(())
}

/// Appends a text of a block, with its length.
pub fn add_text(out: &mut Vec<u8>, text: &[u8]) -> Result<(), OutOfMemory>
    requires { length text.now < 2 ^ 32 }
    ensures { OnOk result (out.new.items ≡ out.old.items ++ part text.now) }
{
    let len = text.len() as u32;
    out.extend_from_slice(&len.to_be_bytes())?;
    out.extend_from_slice(text)?;
    Ok(())
}
