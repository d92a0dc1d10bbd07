//! Each call with ample memory, and faults in mid-stream.
ghost use Rattle.std.specs.Prelude.{None};

use cp_outside::{
    BytesSource, Door, Endpoint, Failed, Folder, MemDoor, MemFolder, MemLink, OutOfMemory,
    ReadWhole, Sink, Source, VecSink, put_all, read_whole,
};
use std::alloc::Global;
use std::test::Fail;

// A sink that takes at most three bytes at a time.
#[derive(Drop)]
struct Slow {
    sink: VecSink,
}

impl Endpoint for Slow {
    ghost left = { λ _. None };

    ghost held = { λ _. None };

    ghost read_faults = { λ _. 0 };

    ghost write_faults = { λ s. s.sink.faults };
}

impl Sink for Slow {
    fn write(&mut self, bytes: &[u8]) -> Result<usize, Failed> {
        let count = bytes.len().min(3);
        self.sink.write(&bytes[..count])
    }
}

// Whether ten bytes could be put, and whether the sink holds these then.
fn put_slowly(
    alloc: Global,
    room: u64,
    failing: u64,
    held: &[u8],
) -> Result<(bool, bool), OutOfMemory> {
    let mut slow = Slow {
        sink: VecSink::new(alloc, room, Vec::from_slice(alloc, &[failing])?)?,
    };
    let done = put_all(&mut slow, b"0123456789").is_ok();
    Ok((done, slow.sink.bytes() == held))
}

#[test]
fn all_is_put_in_pieces(rt: HostRuntime) -> Result<(), Fail> {
    for (room, failing, done, held) in [
        (10, 9, true, b"0123456789".as_slice()),
        (10, 2, false, b"012345"),
        (8, 9, false, b"012345"),
        (10, 0, false, b""),
    ] {
        let got = put_slowly(rt.alloc(), room, failing, held)?;
        assert!(rt; got == (done, true), "at {failing} of {room}");
    }
    Ok(())
}

// Whether a read of at most three bytes answers this, and gives these bytes.
fn gives(source: &mut BytesSource, answer: Result<usize, Failed>, bytes: &[u8]) -> bool {
    let mut into = [0; 3];
    source.read(&mut into) == answer && into.starts_with(bytes)
}

#[test]
fn a_source_gives_its_bytes_once(rt: HostRuntime) -> Result<(), Fail> {
    let alloc = rt.alloc();
    let bytes = Vec::from_slice(alloc, b"abcde")?;
    let mut source = BytesSource::new(bytes, Vec::from_slice(alloc, &[1])?);
    for (answer, bytes) in [
        (Ok(3), b"abc".as_slice()),
        (Err(Failed), b""),
        (Ok(2), b"de"),
        (Ok(0), b""),
    ] {
        assert!(rt; gives(&mut source, answer, bytes));
    }
    Ok(())
}

// Answers one connection with its first byte.
fn answer_one<D: Door>(door: &mut D) -> Result<bool, Failed> {
    match door.accept()? {
        Some(mut conn) => {
            let mut byte = [0u8];
            let answered = conn.read(&mut byte).is_ok() && put_all(&mut conn, &byte).is_ok();
            door.end(conn);
            Ok(answered)
        }
        None => Ok(false),
    }
}

// A door whose second accept fails; so does the write to the second of its three connections.
fn make_door(alloc: Global) -> Result<MemDoor<MemLink>, OutOfMemory> {
    let mut links = Vec::new(alloc);
    for (byte, failing) in [(b'a', 9), (b'b', 1), (b'c', 9)] {
        let bytes = Vec::from_slice(alloc, &[byte])?;
        links.push(MemLink::new(alloc, bytes, 4, Vec::from_slice(alloc, &[failing])?)?)?;
    }
    MemDoor::new(alloc, links, Vec::from_slice(alloc, &[1])?)
}

#[test]
fn connections_come_in_order(rt: HostRuntime) -> Result<(), Fail> {
    let mut door = make_door(rt.alloc())?;
    for wanted in [Ok(true), Err(Failed), Ok(false), Ok(true), Ok(false)] {
        assert!(rt; answer_one(&mut door) == wanted);
    }
    assert!(rt; door.ended().len() == 3);
    for (link, held) in door.ended().iter().zip([b"a".as_slice(), b"", b"c"]) {
        assert!(rt; link.held() == held);
    }
    Ok(())
}

// So many bytes.
fn content(alloc: Global, size: u32) -> Result<Vec<u8>, OutOfMemory> {
    let mut bytes = Vec::new(alloc);
    for n in 0..size {
        bytes.push((n % 251) as u8)?;
    }
    Ok(bytes)
}

// A folder whose one file, called `a`, has these bytes.
fn folder(alloc: Global, bytes: &[u8], failing: u64) -> Option<MemFolder> {
    let room = 65 + bytes.len() as u64;
    let failing = Vec::from_slice(alloc, &[failing]).ok()?;
    let mut folder = MemFolder::new(alloc, room, failing).ok()?;
    folder.write("a", bytes).ok()?;
    Some(folder)
}

// Reads a file of so many bytes, called `a`, under some name, and says whether they come back.
fn read_back(
    alloc: Global,
    size: u32,
    name: &str,
    limit: u64,
    failing: u64,
) -> Option<Result<bool, ReadWhole>> {
    let content = content(alloc, size).ok()?;
    let mut folder = folder(alloc, content.as_slice(), failing)?;
    match read_whole(alloc, &mut folder, name, limit) {
        Ok(bytes) => Some(Ok(bytes.as_slice() == content.as_slice())),
        Err(fault) => Some(Err(fault)),
    }
}

#[test]
fn files_are_read_whole(rt: HostRuntime) {
    for (size, name, limit, failing, wanted) in [
        (10, "a", 10, 9, Ok(true)),
        (10, "a", 9, 9, Err(ReadWhole::TooLong { limit: 9 })),
        (10, "b", 10, 9, Err(ReadWhole::Missing)),
        (10, "b", 10, 1, Err(ReadWhole::Failed)),
        // the read that finds the end
        (10, "a", 10, 2, Err(ReadWhole::Failed)),
        // no read comes after the one that passes the limit
        (10, "a", 5, 2, Err(ReadWhole::TooLong { limit: 5 })),
        (200_000, "a", 200_000, 9, Ok(true)),
        (200_000, "a", 200_000, 3, Err(ReadWhole::Failed)),
    ] {
        let got = read_back(rt.alloc(), size, name, limit, failing);
        assert!(&rt; got == Some(wanted), "{name} {size} {limit} {failing}");
    }
}
