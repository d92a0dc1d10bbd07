//! The folder of the system.
ghost use Rattle.std.specs.Prelude.{None, false};

use crate::failures::Failed;
use crate::folders::{Folder, FolderFault};
use std::fs;
use std::fs::{File, Files};
use std::io::{ErrorKind, Read, Seek, SeekFrom};

/// The current folder of the system: names are paths from there. It tells nothing of its files.
///
/// A file is `Missing` where the system finds nothing at its path, also because something on the way
/// there is no folder. Everything else that goes wrong is a fault: a path that holds a NUL, a folder
/// in a file's place, want of leave, an error of the device.
#[derive(Drop)]
pub struct DirFolder<'a, R: Files> {
    runtime: &'a R,
    read_faults: u64,
    write_faults: u64,
}

impl<'a, R: Files> DirFolder<'a, R> {
    /// The current folder, with no fault so far.
    pub fn new(runtime: &'a R) -> DirFolder<'a, R> {
        DirFolder {
            runtime,
            read_faults: 0,
            write_faults: 0,
        }
    }
}

impl<'a, R: Files> Folder for DirFolder<'a, R> {
    ghost tells = { λ _. false };

    ghost file = { λ _ _. None };

    ghost reach = { λ _. 0 };

    ghost read_faults = { λ s. s.read_faults };

    ghost write_faults = { λ s. s.write_faults };

    // The file is opened anew each time: a reader asks for large pieces.
    fn read_at(&mut self, name: &str, at: u64, into: &mut [u8]) -> Result<usize, FolderFault> {
        match File::open(self.runtime, name) {
            Ok(mut file) => {
                if file.seek(SeekFrom::Start(at)).is_ok() {
                    if let Ok(count) = file.read(into) {
                        return Ok(count);
                    }
                }
            }
            Err(error) => {
                if matches!(error.kind(), ErrorKind::NotFound | ErrorKind::NotADirectory) {
                    return Err(FolderFault::Missing);
                }
            }
        }
        self.read_faults = self.read_faults.saturating_add(1);
        Err(FolderFault::Failed)
    }

    fn write(&mut self, name: &str, bytes: &[u8]) -> Result<(), Failed> {
        if fs::write(self.runtime, name, bytes).is_ok() {
            return Ok(());
        }
        self.write_faults = self.write_faults.saturating_add(1);
        Err(Failed)
    }
}
