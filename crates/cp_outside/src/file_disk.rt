//! A disk over a file of the system.
ghost use Rattle.std.specs.Prelude.{◌≡◌, ◌≤◌, [], length, false, IfOk, IsErr, MatchResult};
ghost use Rattle.cp_outside.specs.Causes.{HasCause};

use crate::disk::Disk;
use crate::failures::Failed;
use std::fs::{File, OpenFile, OpenOptions};
use std::io;
use std::io::{Read, Seek, SeekFrom, Write};
use std::rt::Files;

/// A file of the system as a disk. It is opened at the first call, and made there where it is
/// missing; its folder is then synced too, so that a crash does not take the name away again. It
/// tells nothing of its bytes, and counts its faults.
#[derive(Drop)]
pub struct FileDisk<'a, R: Files> {
    rt: &'a R,
    path: &'a str,
    file: Option<R::File>,
    faults: u64,
}

impl<'a, R: Files> FileDisk<'a, R> {
    /// The file at this path, seen from the current folder. It is not touched yet.
    pub fn new(rt: &'a R, path: &'a str) -> FileDisk<'a, R> {
        FileDisk {
            rt,
            path,
            file: None,
            faults: 0,
        }
    }
}

// The folder in which a path lies.
fn folder_of(path: &str) -> &str {
    match path.rsplit_once('/') {
        None => ".",
        Some(("", _)) => "/",
        Some((folder, _)) => folder,
    }
}

// Opens a file for reading and writing, makes it where it is missing, and syncs its folder.
fn open<R: Files>(rt: &R, path: &str) -> io::Result<R::File> {
    let file = OpenOptions::new()
        .read(true)
        .write(true)
        .create(true)
        .open(rt, path)?;
    File::open(rt, folder_of(path))?.sync_all()?;
    Ok(file)
}

// The file, opened if it isn't yet.
fn opened<'b, R: Files>(
    file: &'b mut Option<R::File>,
    rt: &R,
    path: &str,
) -> io::Result<&'b mut R::File> {
    if file.is_none() {
        *file = Some(open(rt, path)?);
    }
    match file {
        Some(file) => Ok(file),
        None => Err(io::Error::from(io::ErrorKind::NotFound)),
    }
}

// Reads as much as there is.
fn read_all<F: Read + Seek>(file: &mut F, at: u64, into: &mut [u8]) -> io::Result<usize>
    ensures { IfOk result (λ n. n ≤ length into.new) }
{
    file.seek(SeekFrom::Start(at))?;
    let mut done = 0;
    while done < into.len() {
        let count = file.read(&mut into[done..])?;
        if count == 0 {
            break;
        }
        done += count;
    }
    Ok(done)
}

fn write_all<F: Write + Seek>(file: &mut F, at: u64, bytes: &[u8]) -> io::Result<()> {
    file.seek(SeekFrom::Start(at))?;
    file.write_all(bytes)
}

// A fault, counted.
fn counted<T>(outcome: io::Result<T>, faults: &mut u64) -> Result<T, Failed>
    ensures value { MatchResult result (λ x. outcome ≡ Ok x) (λ _. IsErr outcome) }
    ensures cause { HasCause faults.old faults.new result }
{
    match outcome {
        Ok(value) => Ok(value),
        Err(_) => {
            *faults = faults.saturating_add(1);
            Err(Failed)
        }
    }
}

impl<'a, R: Files> Disk for FileDisk<'a, R> {
    ghost tells = { λ _. false };

    ghost seen = { λ _. [] };

    ghost moment = { λ _. 0 };

    ghost images = { λ _ _ _. Unit {0} };

    ghost faults = { λ d. d.faults };

    ghost seen_is_image = { λ _ _. tt };

    ghost counts_now = { λ _ _ _ _ _ _. tt };

    fn read(&mut self, at: u64, into: &mut [u8]) -> Result<usize, Failed> {
        let outcome = match opened::<R>(&mut self.file, self.rt, self.path) {
            Ok(file) => read_all(file, at, into),
            Err(error) => Err(error),
        };
        counted(outcome, &mut self.faults)
    }

    fn write_at(&mut self, at: u64, bytes: &[u8]) -> Result<(), Failed> {
        let outcome = match opened::<R>(&mut self.file, self.rt, self.path) {
            Ok(file) => write_all(file, at, bytes),
            Err(error) => Err(error),
        };
        counted(outcome, &mut self.faults)
    }

    fn sync(&mut self) -> Result<(), Failed> {
        let outcome = match opened::<R>(&mut self.file, self.rt, self.path) {
            Ok(file) => file.sync_all(),
            Err(error) => Err(error),
        };
        counted(outcome, &mut self.faults)
    }
}
