//! What no clause of the disks says: that calls succeed, which images `crash` makes, and a real file.
use cp_outside::{Disk, FileDisk, MemDisk};
use std::alloc::Global;
use std::fs;
use std::test::Fail;

// Whether a read of 8 bytes from the start on gives these.
fn holds<K: Disk>(disk: &mut K, want: &[u8]) -> bool {
    let mut into = [0; 8];
    disk.read(0, &mut into) == Ok(want.len()) && into.starts_with(want)
}

// A disk that holds a text for good, with a write that was not synced.
fn unsynced(alloc: Global, text: &[u8], at: u64, bytes: &[u8]) -> Option<MemDisk> {
    let mut disk = MemDisk::new(alloc, 1024, Vec::new(alloc)).ok()?;
    disk.write_at(0, text).ok()?;
    disk.sync().ok()?;
    disk.write_at(at, bytes).ok()?;
    Some(disk)
}

// The bytes of a disk, which are at most 8, with zeros behind them, and their number.
fn bytes_of(disk: &mut MemDisk) -> Option<([u8; 8], usize)> {
    let mut bytes = [0; 8];
    let count = disk.read(0, &mut bytes).ok()?;
    Some((bytes, count))
}

// What a crash leaves of such a disk.
fn left(alloc: Global, text: &[u8], at: u64, bytes: &[u8], pick: u64) -> Option<([u8; 8], usize)> {
    let disk = unsynced(alloc, text, at, bytes)?;
    let mut left = disk.crash(alloc, pick).ok()?;
    bytes_of(&mut left)
}

// The byte that a crash leaves in the place of the second of three, where the others stay.
fn byte_left(alloc: Global, pick: u64) -> Option<u8> {
    let (bytes, length) = left(alloc, b"abc", 1, b"B", pick)?;
    (length == 3 && bytes[0] == b'a' && bytes[2] == b'c').then_some(bytes[1])
}

// How many bytes a crash leaves of two and a write behind them, where those two stay.
fn length_left(alloc: Global, pick: u64) -> Option<usize> {
    let (bytes, length) = left(alloc, b"ab", 3, b"de", pick)?;
    (bytes[0] == b'a' && bytes[1] == b'b').then_some(length)
}

#[test]
fn a_crash_leaves_any_byte_where_the_write_was_not_synced(rt: HostRuntime) {
    let mut seen = [false; 256];
    for pick in 0..1024 {
        let byte = byte_left(rt.alloc(), pick);
        assert!(&rt; byte.is_some(), "at {pick}");
        seen[byte.unwrap_or(0) as usize] = true;
    }
    assert!(&rt; seen == [true; 256]);
    assert!(&rt; byte_left(rt.alloc(), 0) == Some(b'b'));
    assert!(&rt; byte_left(rt.alloc(), 1) == Some(b'B'));
}

#[test]
fn a_crash_leaves_any_length_that_was_not_synced(rt: HostRuntime) {
    let mut seen = [false; 8];
    for pick in 0..64 {
        seen[length_left(rt.alloc(), pick).unwrap_or(0).min(7)] = true;
    }
    assert!(&rt; seen == [false, false, true, true, true, true, false, false]);
}

#[test]
fn a_file_is_a_disk(rt: HostRuntime) -> Result<(), Fail> {
    let name = "file_disk_test";
    let mut disk = FileDisk::new(&rt, name);
    assert!(rt; disk.write_at(2, b"ab").is_ok());
    assert!(rt; disk.sync().is_ok());
    assert!(rt; holds(&mut FileDisk::new(&rt, name), b"\0\0ab"));
    assert!(rt; FileDisk::new(&rt, "no_such_folder/file").sync().is_err());
    fs::remove_file(&rt, name)?;
    Ok(())
}
