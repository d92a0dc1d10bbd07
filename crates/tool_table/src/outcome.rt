//! What a row's command ends with.
use crate::row::Row;
use cp_outside::{Folder, MemDisk, MemFolder, VecSink};
use cp_tool::run;
use std::alloc::{AllocError, Global};
use std::thread::Threads;

// The room of each object.
const ROOM: u64 = 0x1_0000;

// The inputs, in the order in which they are written.
const INPUTS: [&str; 4] = ["key", "seed", "content", "script"];

// The files that the rows' commands write.
const OUTPUTS: [&str; 8] = [
    "made",
    "store.key",
    "handins",
    "families-1",
    "closing-1",
    "table-1",
    "log-1",
    "families-2",
];

// A public key of height 5 and width 1, whose root no command here needs.
fn public_key() -> [u8; 56] {
    let mut key = [0; 56];
    key[3] = 5;
    key[7] = 1;
    key
}

// A folder with the inputs; its calls are numbered from the first of their writes on.
fn folder(alloc: Global, failing: Vec<u64>) -> Result<MemFolder, AllocError> {
    let mut files = MemFolder::new(alloc, ROOM, failing)?;
    let (key, seed) = (public_key(), [0; 48]);
    let inputs: [&[u8]; 4] = [&key, &seed, b"blue", b"get 2 5 1\nclose\n"];
    for (name, bytes) in INPUTS.iter().zip(inputs) {
        let _ = files.write(name, bytes);
    }
    Ok(files)
}

// The names of the files that were written.
fn written(alloc: Global, files: &MemFolder) -> Result<String, AllocError> {
    let mut names = String::new(alloc);
    for name in &OUTPUTS {
        if files.file(name).is_some() {
            names.push(' ')?;
            names.push_str(name)?;
        }
    }
    Ok(names)
}

// The text of a sink.
fn text(out: &VecSink) -> &str {
    str::from_utf8(out.bytes()).unwrap_or("no text")
}

/// The status, the files that were written and what was printed.
pub fn outcome<R: Threads + Sync>(rt: &R, alloc: Global, row: Row) -> Result<String, AllocError> {
    let Row {
        folder: folder_calls,
        disk,
        sink,
        words,
    } = row;
    let mut files = folder(alloc, folder_calls)?;
    let mut vault = MemDisk::new(alloc, ROOM, disk)?;
    let mut out = VecSink::new(alloc, ROOM, sink)?;
    let status = run(
        rt,
        alloc,
        words.as_slice(),
        &mut files,
        &mut vault,
        &mut out,
    );
    let names = written(alloc, &files)?;
    format!(in alloc; "{status}{names}: {}", text(&out))
}
