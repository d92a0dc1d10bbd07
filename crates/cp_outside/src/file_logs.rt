//! The writes into a folder in memory.
ghost use Rattle.std.specs.Prelude.{◌≡◌, ◌↔◌, ◌≢◌, ◌<◌, ◌+◌, ◌∷◌, ◌++◌, [], ℕ, List, None, Some, IfOk, IsErr, MatchResult, OnOk, length};
ghost use Rattle.std.specs.Option.{option_map};
ghost use Rattle.cp_outside.specs.MemFolders.{file_after, size_of_all};

use crate::appending::append;
use crate::entries::Entry;
use crate::failures::{Failed, OutOfMemory};
use crate::finding::find;
use std::alloc::Global;
use std::marker::Model;

// The writes into a folder, the newest last, in a room that is taken when the log is made and never
// grows.
#[derive(Drop)]
pub(crate) struct FileLog {
    entries: Vec<Entry>,
    bytes: Vec<u8>,
    room: u64,
}

impl Model for FileLog {
    ghost use Rattle.cp_outside.specs.MemFolders.{Writes};

    ghost Value = { Writes };

    ghost use Rattle.cp_outside.specs.Entries.{writes_in};
    ghost use Rattle.cp_outside.specs.FileLogs.{IsLog};

    ghost view = { λ s. record { all = writes_in s.bytes.items s.entries.items; room = s.room } };

    ghost invariant = { IsLog };
}

impl FileLog {
    // No write so far.
    pub(crate) fn new(alloc: Global, room: u64) -> Result<FileLog, OutOfMemory>
        ensures { IfOk result (λ log. log ≡ record { all = []; room = room }) }
    {
        Ok(FileLog {
            entries: Vec::with_capacity(alloc, (room / 64) as usize)?,
            bytes: Vec::with_capacity(alloc, room as usize)?,
            room,
        })
    }

    // The content of the last write under a name.
    pub(crate) fn file(&self, name: &str) -> Option<&[u8]>
        ensures { option_map (λ content. content.now) result ≡ file_after None self.now.all name.now }
    {
        match find(self.entries.as_slice(), self.bytes.as_slice(), name) {
            Some(entry) => Some(&self.bytes[entry.middle..entry.end]),
            None => None,
        }
    }

    // Adds a write, exactly where the room has place for it.
    pub(crate) fn add(&mut self, name: &str, content: &[u8]) -> Result<(), Failed>
        ensures full { IsErr result
            ↔ (self.old.room < size_of_all self.old.all + (64 + length name.now + length content.now)) }
        ensures added { MatchResult result
            (λ _. self.new ≡ record self.old {
              all = self.old.all ++ record { name = name.now; content = content.now } ∷ [];
            })
            (λ _. self.new ≡ self.old) }
    {
        let filled = 64 * self.entries.len() as u64 + self.bytes.len() as u64;
        let left = self.room - filled;
        if left < 64
            || left - 64 < name.len() as u64
            || left - 64 - (name.len() as u64) < content.len() as u64
        {
            return Err(Failed);
        }
        append(&mut self.entries, &mut self.bytes, name, content)
    }
}
