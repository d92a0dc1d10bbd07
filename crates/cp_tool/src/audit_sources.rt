//! Reading the files of an audit.
ghost use Rattle.std.specs.Prelude.{◌≡◌, ℕ, List};
ghost use Rattle.cp_tool.specs.AuditInputs.{ReadsSource, ReadsSources};
ghost use Rattle.cp_tool.specs.AuditRuns.{named, own, own_before};
ghost use Rattle.cp_commands.specs.View.{audit_words_view};
ghost use Rattle.cp_endings.specs.Folders.{files_of};

use crate::judging::KEY_LIMIT;
use cp_commands::AuditWords;
use cp_endings::{AuditEnding, Ending, EpochPart, input};
use cp_outside::{Folder, ReadWhole, read_whole};
use std::alloc::Global;

/// The most bytes of a families list: 1 MiB.
const FAMILIES_LIMIT: u64 = 1_048_576;

/// The most bytes of a closing's envelope: 16 KiB.
const CLOSING_LIMIT: u64 = 16_384;

/// The most bytes of a table: 16 MiB.
const TABLE_LIMIT: u64 = 16_777_216;

/// The most bytes of a log: 320 MiB.
const LOG_LIMIT: u64 = 335_544_320;

/// The most bytes of hand-ins: 64 MiB.
const HAND_INS_LIMIT: u64 = 67_108_864;

/// The bytes of an audit's files. In epoch 1 there is no closing and no table before.
#[derive(Drop)]
pub(crate) struct Sources {
    pub(crate) key: Vec<u8>,
    pub(crate) families: Vec<u8>,
    pub(crate) before: Vec<u8>,
    pub(crate) closing: Vec<u8>,
    pub(crate) table_before: Vec<u8>,
    pub(crate) table: Vec<u8>,
    pub(crate) log: Vec<u8>,
    pub(crate) hand_ins: Vec<u8>,
}

// The bytes of a file that the words name, or how the command ends without them.
fn named_file<'a, F: Folder>(
    alloc: Global,
    files: &mut F,
    name: &'a str,
    limit: u64,
) -> Result<Vec<u8>, Ending<'a>>
    ensures reads { ReadsSource (F.tells files.old) (F.file files.old) (named name.entry.now limit) (F.read_faults files.old) (F.read_faults files.new) result }
    ensures tells { F.tells files.new ≡ F.tells files.old }
    ensures unwritten { F.write_faults files.new ≡ F.write_faults files.old }
    ensures kept { (other : List ℕ) → F.file files.new other ≡ F.file files.old other }
{
    input(alloc, files, name, limit)
}

// The bytes of a file of an epoch's material.
fn own_file<'a, F: Folder>(
    alloc: Global,
    files: &mut F,
    part: EpochPart,
    epoch: u64,
    limit: u64,
) -> Result<Vec<u8>, Ending<'a>>
    ensures reads { ReadsSource (F.tells files.old) (F.file files.old) (own part epoch limit) (F.read_faults files.old) (F.read_faults files.new) result }
    ensures tells { F.tells files.new ≡ F.tells files.old }
    ensures unwritten { F.write_faults files.new ≡ F.write_faults files.old }
    ensures kept { (other : List ℕ) → F.file files.new other ≡ F.file files.old other }
{
    let Ok(name) = part.name(alloc, epoch) else {
        return Err(Ending::NoMemory);
    };
    match read_whole(alloc, files, name.as_str(), limit) {
        Ok(bytes) => Ok(bytes),
        Err(ReadWhole::Missing) => Err(Ending::Audited(AuditEnding::Missing { part, epoch })),
        Err(ReadWhole::TooLong { .. }) => Err(Ending::TooLong { limit }),
        Err(ReadWhole::Failed) => Err(Ending::Fault),
        Err(ReadWhole::OutOfMemory) => Err(Ending::NoMemory),
    }
}

// The bytes of a file of the epoch before; none in epoch 1.
fn file_before<'a, F: Folder>(
    alloc: Global,
    files: &mut F,
    part: EpochPart,
    epoch: u64,
    limit: u64,
) -> Result<Vec<u8>, Ending<'a>>
    ensures reads { ReadsSource (F.tells files.old) (F.file files.old) (own_before part epoch limit) (F.read_faults files.old) (F.read_faults files.new) result }
    ensures tells { F.tells files.new ≡ F.tells files.old }
    ensures unwritten { F.write_faults files.new ≡ F.write_faults files.old }
    ensures kept { (other : List ℕ) → F.file files.new other ≡ F.file files.old other }
{
    if epoch <= 1 {
        return Ok(Vec::new(alloc));
    }
    own_file(alloc, files, part, epoch - 1, limit)
}

impl Sources {
    // The bytes of all files, in the order in which they are read, or how the command ends at the first
    // that is refused.
    pub(crate) fn read<'a, F: Folder>(
        alloc: Global,
        files: &mut F,
        words: AuditWords<'a>,
    ) -> Result<Sources, Ending<'a>>
        ensures reads { ReadsSources (audit_words_view words.entry)
            (files_of F.Folder files.old)
            (files_of F.Folder files.new) result }
        ensures tells { F.tells files.new ≡ F.tells files.old }
        ensures unwritten { F.write_faults files.new ≡ F.write_faults files.old }
    {
        let epoch = words.epoch;
        let key = named_file(alloc, files, words.key, KEY_LIMIT)?;
        let families = own_file(alloc, files, EpochPart::Families, epoch, FAMILIES_LIMIT)?;
        let before = file_before(alloc, files, EpochPart::Closing, epoch, CLOSING_LIMIT)?;
        let closing = own_file(alloc, files, EpochPart::Closing, epoch, CLOSING_LIMIT)?;
        let table_before = file_before(alloc, files, EpochPart::Table, epoch, TABLE_LIMIT)?;
        let table = own_file(alloc, files, EpochPart::Table, epoch, TABLE_LIMIT)?;
        let log = own_file(alloc, files, EpochPart::Log, epoch, LOG_LIMIT)?;
        let hand_ins = named_file(alloc, files, words.hand_ins, HAND_INS_LIMIT)?;
        Ok(Sources {
            key,
            families,
            before,
            closing,
            table_before,
            table,
            log,
            hand_ins,
        })
    }
}
