//! The files that a replay writes.
ghost use Rattle.std.specs.Prelude.{◌≡◌, ◌≢◌, ◌≤◌, ℕ, List, ◌++◌, ◌∷◌, ◌+◌, ◌<◌, ◌^◌, [], IfOk, OnOk, map, length, string_bytes};
ghost use Rattle.std.specs.List.{AllByRecursion};
ghost use Rattle.cp_replay.specs.View.{replayed_view};
ghost use Rattle.cp_endings.specs.EpochFiles.{epoch_file};
ghost use Rattle.cp_endings.specs.Folders.{files_of};
ghost use Rattle.cp_tool.specs.ReplayFiles.{epoch_writes, epochs_writes, writes_of};
ghost use Rattle.cp_endings.specs.Writes.{write_of};
ghost use Rattle.cp_tool.specs.ReplayInputs.{WritesFiles};
ghost use Rattle.cp_tool.specs.ReplayView.{write_view};

use cp_bytes::OutOfMemory;
use cp_endings::EpochPart;
use cp_outside::{Failed, Folder};
use cp_replay::{EpochFiles, Replayed};
use std::alloc::Global;

// A file that is written: its name and its bytes.
#[derive(Drop)]
pub(crate) struct FileWrite<'a> {
    pub(crate) name: String,
    pub(crate) bytes: &'a [u8],
}

// One more file.
#[tactic(auto, using(crate::proofs::WriteLemmas::pushed))]
fn add<'a>(
    writes: &mut Vec<FileWrite<'a>>,
    name: String,
    bytes: &'a [u8],
) -> Result<(), OutOfMemory>
    ensures { OnOk result (map write_view writes.new.items ≡ map write_view writes.old.items ++ write_of (string_bytes name) bytes.entry.now ∷ []) }
{
    writes.push(FileWrite { name, bytes })?;
    Ok(())
}

// One more file, of this name.
fn add_named<'a>(
    alloc: Global,
    writes: &mut Vec<FileWrite<'a>>,
    name: &str,
    bytes: &'a [u8],
) -> Result<(), OutOfMemory>
    ensures { OnOk result (map write_view writes.new.items ≡ map write_view writes.old.items ++ write_of name.now bytes.entry.now ∷ []) }
{
    let name = String::from_str(alloc, name)?;
    add(writes, name, bytes)
}

// One more file of an epoch.
fn add_part<'a>(
    alloc: Global,
    writes: &mut Vec<FileWrite<'a>>,
    part: EpochPart,
    epoch: u64,
    bytes: &'a [u8],
) -> Result<(), OutOfMemory>
    ensures { OnOk result (map write_view writes.new.items ≡ map write_view writes.old.items ++ write_of (epoch_file part epoch) bytes.entry.now ∷ []) }
{
    let name = part.name(alloc, epoch)?;
    add(writes, name, bytes)
}

// The files of a closed epoch.
fn add_epoch<'a>(
    alloc: Global,
    writes: &mut Vec<FileWrite<'a>>,
    epoch: u64,
    files: &'a EpochFiles,
) -> Result<(), OutOfMemory>
    ensures { OnOk result (map write_view writes.new.items ≡ map write_view writes.old.items ++ epoch_writes epoch files.now) }
{
    add_part(
        alloc,
        writes,
        EpochPart::Families,
        epoch,
        files.families.as_slice(),
    )?;
    add_part(
        alloc,
        writes,
        EpochPart::Closing,
        epoch,
        files.closing.as_slice(),
    )?;
    add_part(
        alloc,
        writes,
        EpochPart::Table,
        epoch,
        files.table.as_slice(),
    )?;
    add_part(alloc, writes, EpochPart::Log, epoch, files.log.as_slice())?;
    Ok(())
}

// The files of the closed epochs, from epoch 1 on.
#[tactic(auto, using(crate::proofs::WriteLemmas::each_epoch))]
fn add_epochs<'a>(
    alloc: Global,
    writes: &mut Vec<FileWrite<'a>>,
    epochs: &'a [EpochFiles],
) -> Result<(), OutOfMemory>
    ensures { OnOk result (map write_view writes.new.items ≡ map write_view writes.old.items ++ epochs_writes 1 epochs.now) }
{
    let mut epoch = 1u64;
    for files in epochs {
        add_epoch(alloc, writes, epoch, files)?;
        epoch += 1;
    }
    Ok(())
}

impl<'a> FileWrite<'a> {
    // The files that a replay leaves, in the order in which they are written.
    pub(crate) fn all(alloc: Global, done: &'a Replayed) -> Result<Vec<FileWrite<'a>>, OutOfMemory>
        ensures { IfOk result (λ writes. map write_view writes.items ≡ writes_of (replayed_view done.now)) }
    {
        let mut writes = Vec::new(alloc);
        add_named(alloc, &mut writes, "store.key", &done.key)?;
        add_named(alloc, &mut writes, "handins", done.handins.as_slice())?;
        add_epochs(alloc, &mut writes, done.epochs.as_slice())?;
        Ok(writes)
    }
}

// Writes the files, one after another, up to one whose write fails.
#[tactic(auto, using(crate::proofs::WriteLemmas::each_write))]
pub(crate) fn write_files<F: Folder>(files: &mut F, writes: &[FileWrite<'_>]) -> Result<(), Failed>
    ensures writes { WritesFiles (map write_view writes.now)
        (files_of F.Folder files.old)
        (files_of F.Folder files.new) result }
    ensures tells { F.tells files.new ≡ F.tells files.old }
    ensures unread { F.read_faults files.new ≡ F.read_faults files.old }
    ensures write_count { F.write_faults files.old ≤ F.write_faults files.new }
    ensures others { (name : List ℕ) → AllByRecursion (λ w. name ≢ w.name) (map write_view writes.now)
        → F.file files.new name ≡ F.file files.old name }
{
    for write in writes {
        match files.write(write.name.as_str(), write.bytes) {
            Ok(()) => {}
            Err(failed) => return Err(failed),
        }
    }
    Ok(())
}
