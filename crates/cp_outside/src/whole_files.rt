//! Reading a whole file.
ghost use Rattle.std.specs.Prelude.{◌≡◌, ℕ, ◌+◌, ◌<◌, ◌≤◌, List, drop, length, max, take, true, false, Ok, OnOk, IfOk, IsTrue, vec_len};
ghost use Rattle.cp_outside.specs.Folders.{HasFolderCause, ReadsAt};
ghost use Rattle.cp_outside.specs.WholeFiles.{HasWholeCause, IsFrontOf, NamesLimit, ReadsMore, ReadsWhole};

use crate::folders::{Folder, FolderFault};
use std::alloc::Global;

/// Why a file was not read.
#[derive(Clone, Copy, Debug, PartialEq, Eq)]
pub enum ReadWhole {
    /// There is no file of this name.
    Missing,
    /// The folder failed: its count of failed reads rose in the call.
    Failed,
    /// The file has more bytes than this limit.
    TooLong { limit: u64 },
    /// There is no memory left for the file's bytes.
    OutOfMemory,
}

// The least and the most bytes that one read asks for. Between them a read asks for as many bytes as
// were read before it, so that a short file takes little memory and a long one few reads.
const LEAST: usize = 0x1_0000;

const MOST: usize = 0x10_0000;

/// All bytes of a file, of which there may be at most `limit`. Each piece is read to where it stays.
/// Reading stops at the file's end, or once `limit + 1` bytes were read, which is the answer
/// `TooLong`; no byte behind those is asked for. `Missing` comes exactly where no read fails and no file has this name. No file changes.
pub fn read_whole<F: Folder>(
    alloc: Global,
    folder: &mut F,
    name: &str,
    limit: u64,
) -> Result<Vec<u8>, ReadWhole>
    ensures bytes { IsTrue (F.tells folder.old) → ReadsWhole (F.file folder.old name.now) limit result }
    ensures bound { IfOk result (λ bytes. vec_len bytes ≤ limit) }
    ensures limit { NamesLimit limit result }
    ensures cause { HasWholeCause (F.read_faults folder.old) (F.read_faults folder.new) result }
    ensures unwritten { F.write_faults folder.new ≡ F.write_faults folder.old }
    ensures reach { F.reach folder.new ≤ max (F.reach folder.old) (limit + 1) }
    ensures tells { F.tells folder.new ≡ F.tells folder.old }
    ensures kept { (other : List ℕ) → F.file folder.new other ≡ F.file folder.old other }
{
    let mut bytes = Vec::new(alloc);
    loop {
        let more = read_more(folder, name, &mut bytes, limit)?;
        if !more {
            return Ok(bytes);
        }
        if bytes.len() as u64 > limit {
            return Err(ReadWhole::TooLong { limit });
        }
    }
}

// Reads the next bytes of a file behind those that were read, up to one byte past the limit, and says
// whether there were any.
fn read_more<F: Folder>(
    folder: &mut F,
    name: &str,
    bytes: &mut Vec<u8>,
    limit: u64,
) -> Result<bool, ReadWhole>
    requires room { vec_len bytes.old ≤ limit }
    requires so_far { IsTrue (F.tells folder.old) → IsFrontOf (F.file folder.old name.now) bytes.old.items }
    ensures told { IsTrue (F.tells folder.old) → ReadsMore (F.file folder.old name.now) bytes.new.items result }
    ensures more { result ≡ Ok true → vec_len bytes.old < vec_len bytes.new }
    ensures bound { OnOk result (vec_len bytes.new ≤ limit + 1) }
    ensures end { result ≡ Ok false → bytes.new.items ≡ bytes.old.items }
    ensures limit { NamesLimit limit result }
    ensures cause { HasWholeCause (F.read_faults folder.old) (F.read_faults folder.new) result }
    ensures unwritten { F.write_faults folder.new ≡ F.write_faults folder.old }
    ensures reach { F.reach folder.new ≤ max (F.reach folder.old) (limit + 1) }
    ensures tells { F.tells folder.new ≡ F.tells folder.old }
    ensures kept { (other : List ℕ) → F.file folder.new other ≡ F.file folder.old other }
{
    let start = bytes.len();
    let most = (limit - start as u64).min((MOST - 1) as u64) as usize + 1;
    let wanted = start.max(LEAST).min(most);
    if bytes.resize(start + wanted, 0).is_err() {
        return Err(ReadWhole::OutOfMemory);
    }
    match read_behind(folder, name, bytes.as_mut_slice(), start) {
        Ok(0) => {
            bytes.truncate(start);
            Ok(false)
        }
        Ok(count) => {
            bytes.truncate(start + count);
            Ok(true)
        }
        Err(FolderFault::Missing) => Err(ReadWhole::Missing),
        Err(FolderFault::Failed) => Err(ReadWhole::Failed),
    }
}

// Reads a file's bytes from `start` on to where they stand in the whole file.
fn read_behind<F: Folder>(
    folder: &mut F,
    name: &str,
    bytes: &mut [u8],
    start: usize,
) -> Result<usize, FolderFault>
    requires { start < length bytes.old }
    ensures front { take start bytes.new ≡ take start bytes.old }
    ensures within { IfOk result (λ n. start + n ≤ length bytes.new) }
    ensures told { IsTrue (F.tells folder.old) → ReadsAt (F.file folder.old name.now) start (drop start bytes.new) result }
    ensures cause { HasFolderCause (F.read_faults folder.old) (F.read_faults folder.new) result }
    ensures unwritten { F.write_faults folder.new ≡ F.write_faults folder.old }
    ensures reach { F.reach folder.new ≤ max (F.reach folder.old) (length bytes.old) }
    ensures tells { F.tells folder.new ≡ F.tells folder.old }
    ensures kept { (other : List ℕ) → F.file folder.new other ≡ F.file folder.old other }
{
    folder.read_at(name, start as u64, &mut bytes[start..])
}
