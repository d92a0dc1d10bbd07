//! Logs: the segments of all blocks that gained a text in an epoch.
ghost use Rattle.std.specs.Prelude.{◌≡◌, None};
ghost use Rattle.cp_chain.specs.Log.{comes_behind, log_of, log_part_at, log_parts_at, log_parts_in};
ghost use Rattle.cp_chain.specs.View.{log_part_view};
ghost use Rattle.cp_statements.specs.Reading.{ReadsOn};

use crate::Segment;
use cp_bytes::Cut;
use cp_statements::{Malformed, take_epoch, take_tag};
use std::marker::Model;

/// An epoch's log, which borrows the bytes that it was read from. Contracts see its epoch and its
/// parts, strictly ascending by block.
#[derive(Drop)]
pub struct LogText<'a> {
    epoch: u64,
    count: u32,
    parts: &'a [u8],
}

impl<'a> Model for LogText<'a> {
    ghost use Rattle.std.specs.Prelude.{None, IsOk};
    ghost use Rattle.cp_chain.specs.Log.{Log, log_parts_at, log_parts_in};

    ghost Value = { Log };

    ghost view = { λ l. record { epoch = l.epoch; parts = log_parts_in l.count None l.parts.now } };

    ghost invariant = { λ l. IsOk (log_parts_at l.count None l.parts.now) };
}

impl<'a> LogText<'a> {
    ghost use Rattle.cp_statements.specs.Reading.{Reads};

    /// The log that all of the bytes spell: "CPl1", the epoch in eight bytes, the number of its parts in
    /// four, and the parts, each a block in eight bytes and a segment; numbers are big endian. A block
    /// that isn't greater than the one before is refused at its first byte.
    #[tactic(auto, unfolding(crate::specs::Log::log_of))]
    pub fn read(bytes: &'a [u8]) -> Result<LogText<'a>, Malformed>
        ensures { Reads (λ l. l) result (log_of bytes.now) }
    {
        let mut cut = Cut::new(bytes);
        take_tag(&mut cut, b"CPl1")?;
        let epoch = take_epoch(&mut cut)?;
        let count = cut.be_u32()?;
        let parts = cut.rest();
        pass_log_parts(&mut cut, count)?;
        cut.end()?;
        Ok(LogText {
            epoch,
            count,
            parts,
        })
    }

    /// The log's epoch, at least 1.
    pub fn epoch(&self) -> u64
        ensures { result ≡ self.now.epoch }
    {
        self.epoch
    }

    /// Its parts, in order.
    pub fn parts(&self) -> LogParts<'a>
        ensures { result ≡ self.now.parts }
    {
        LogParts {
            left: self.count,
            before: None,
            rest: self.parts,
        }
    }
}

/// A block and the segment of the texts that its chain gained.
#[derive(Drop)]
pub struct LogPart<'a> {
    /// The block's number.
    pub block: u64,
    /// Its segment.
    pub segment: Segment<'a>,
}

/// The parts of a log that are still to come.
#[derive(Drop)]
pub struct LogParts<'a> {
    left: u32,
    before: Option<u64>,
    rest: &'a [u8],
}

impl<'a> Model for LogParts<'a> {
    ghost use Rattle.std.specs.Prelude.{List, IsOk};
    ghost use Rattle.cp_chain.specs.Log.{LogPart, log_parts_at, log_parts_in};

    ghost Value = { List LogPart };

    ghost view = { λ l. log_parts_in l.left l.before l.rest.now };

    ghost invariant = { λ l. IsOk (log_parts_at l.left l.before l.rest.now) };
}

impl<'a> Iterator for LogParts<'a> {
    type Item = LogPart<'a>;

    ghost use Rattle.std.specs.Iterator.{YieldsFirstBy, item_count};

    ghost next_gives = { YieldsFirstBy log_part_view (λ parts. parts) };

    ghost remaining = { item_count (λ parts. parts) };

    fn next(&mut self) -> Option<LogPart<'a>> {
        if self.left == 0 {
            return None;
        }
        let mut cut = Cut::new(self.rest);
        match take_log_part(&mut cut, self.before) {
            Ok(part) => {
                self.left -= 1;
                self.before = Some(part.block);
                self.rest = cut.rest();
                Some(part)
            }
            // There are as many parts as the number says.
            Err(_) => None,
        }
    }
}

/// The block and the segment at the front, behind the block before.
#[tactic(auto, unfolding(crate::specs::Log::log_part_at))]
fn take_log_part<'a>(cut: &mut Cut<'a>, before: Option<u64>) -> Result<LogPart<'a>, Malformed>
    ensures { ReadsOn log_part_view cut.old cut.new result (log_part_at before cut.old.rest) }
{
    let at = cut.at();
    let block = cut.be_u64()?;
    if !comes_behind(before, block) {
        return Err(Malformed { at });
    }
    let segment = Segment::take(cut)?;
    Ok(LogPart { block, segment })
}

/// Whether the block comes after the one before.
fn comes_behind(before: Option<u64>, block: u64) -> bool
    ensures { result ≡ comes_behind before block }
{
    match before {
        None => true,
        Some(before) => before < block,
    }
}

/// Passes over so many parts.
fn pass_log_parts(cut: &mut Cut, n: u32) -> Result<(), Malformed>
    ensures { ReadsOn (λ _. log_parts_in n None cut.old.rest) cut.old cut.new result (log_parts_at n None cut.old.rest) }
{
    let mut before = None;
    'parts: for _ in 0..n {
        let part = take_log_part(cut, before)?;
        before = Some(part.block);
    }
    Ok(())
}
