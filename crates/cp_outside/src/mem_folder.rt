//! A folder in memory.
ghost use Rattle.std.specs.Prelude.{◌≡◌, ◌≢◌, ◌↔◌, ◌⊎◌, ◌<◌, ◌+◌, ◌-◌, ◌∷◌, ◌++◌, [], ℕ, List, Some, None, true, Err, IfOk, IsErr, OnOk, length, drop, min, take};
ghost use Rattle.std.specs.Option.{option_map};
ghost use Rattle.cp_outside.specs.Causes.{HasCause};
ghost use Rattle.cp_outside.specs.Folders.{HasFolderCause};
ghost use Rattle.cp_outside.specs.MemFolders.{FolderReads, FolderWrites, file_after, size_of_all};
ghost use Rattle.cp_outside.specs.Schedules.{IsDue};

use crate::failures::{Failed, OutOfMemory};
use crate::file_logs::FileLog;
use crate::folders::{Folder, FolderFault};
use crate::schedules::{Schedule, count_fault};
use crate::supplies::copy_front;
use std::alloc::Global;
use std::marker::Model;

/// A folder in memory, with a room that is taken when it is made. A write fills it by 64, its name and
/// its bytes, and what it overwrites is not given back.
#[derive(Drop)]
pub struct MemFolder {
    log: FileLog,
    schedule: Schedule,
    read_faults: u64,
    write_faults: u64,
}

impl Model for MemFolder {
    ghost use Rattle.cp_outside.specs.Folders.{HasFolderCause};
    ghost use Rattle.cp_outside.specs.MemFolders.{FolderState};

    ghost Value = { FolderState };

    ghost view = { λ s. record {
      writes = s.log.all;
      room = s.log.room;
      plan = s.schedule;
      read_faults = s.read_faults;
      write_faults = s.write_faults;
    } };
}

impl MemFolder {
    /// A folder with no file, with this room. Its calls of `read_at` and `write` are numbered together
    /// from 0, and those with the listed numbers fail.
    pub fn new(alloc: Global, room: u64, failing: Vec<u64>) -> Result<MemFolder, OutOfMemory>
        ensures { IfOk result (λ folder. folder ≡ record {
          writes = [];
          room = room;
          plan = record { failing = failing.items; calls = 0 };
          read_faults = 0;
          write_faults = 0;
        }) }
    {
        Ok(MemFolder {
            log: FileLog::new(alloc, room)?,
            schedule: Schedule::new(failing),
            read_faults: 0,
            write_faults: 0,
        })
    }

    /// The bytes of the file of this name, or `None` where there is no such file.
    pub fn file(&self, name: &str) -> Option<&[u8]>
        ensures { option_map (λ content. content.now) result ≡ file_after None self.now.writes name.now }
    {
        self.log.file(name)
    }
}

impl Folder for MemFolder {
    ghost tells = { λ _. true };

    ghost file = { λ s name. file_after None s.writes name };

    ghost reach = { λ _. 0 };

    ghost read_faults = { λ s. s.read_faults };

    ghost write_faults = { λ s. s.write_faults };

    /// Moves as many bytes as there are and fit. It fails exactly where its number is listed.
    fn read_at(&mut self, name: &str, at: u64, into: &mut [u8]) -> Result<usize, FolderFault>
        ensures fails { (result ≡ Err FolderFault.Failed) ↔ IsDue self.old.plan }
        ensures cause { HasFolderCause self.old.read_faults self.new.read_faults result }
        ensures reads { FolderReads self.old self.new name.now at into.new result }
    {
        if self.schedule.count() {
            count_fault(&mut self.read_faults);
            return Err(FolderFault::Failed);
        }
        match self.log.file(name) {
            Some(file) => Ok(copy_from(file, at, into)),
            None => Err(FolderFault::Missing),
        }
    }

    /// It fails exactly where its number is listed or the room left is too small. Then all files are as
    /// before.
    #[tactic(auto, using(crate::proofs::WriteLemmas::file_after_write))]
    fn write(&mut self, name: &str, bytes: &[u8]) -> Result<(), Failed>
        ensures fails { IsErr result
            ↔ (IsDue self.old.plan
            ⊎ (self.old.room < size_of_all self.old.writes + (64 + length name.now + length bytes.now))) }
        ensures cause { HasCause self.old.write_faults self.new.write_faults result }
        ensures writes { FolderWrites self.old self.new name.now bytes.now result }

        // what these writes make of the files
        ensures written { OnOk result (file_after None self.new.writes name.now ≡ Some bytes.now) }
        ensures others { (other : List ℕ) → other ≢ name.now
            → file_after None self.new.writes other ≡ file_after None self.old.writes other }
    {
        if self.schedule.count() || self.log.add(name, bytes).is_err() {
            count_fault(&mut self.write_faults);
            return Err(Failed);
        }
        Ok(())
    }
}

// Copies a file's bytes from `at` on to the front of `into`, as many as there are and fit.
fn copy_from(file: &[u8], at: u64, into: &mut [u8]) -> usize
    ensures count { result ≡ min (length into.new) (length file.now - at) }
    ensures copied { take result into.new ≡ take result (drop at file.now) }
{
    if at >= file.len() as u64 {
        return 0;
    }
    copy_front(&file[at as usize..], into)
}
