//! A script through both bodies of a store.

use cp_replay::{By, EpochFiles, Replayed, Script, replay};
use lms_ots::OtsType;
use lms_tree::Height;
use std::alloc::{AllocError, Global};
use std::thread::Threads;

// How many threads make the keys.
const WORKERS: usize = 4;

// The replay of a script with a store of height 5 and width 8.
fn replayed<R: Threads + Sync>(
    rt: &R,
    alloc: Global,
    script: &Script,
    pages: u32,
    by: By,
) -> Result<Replayed, AllocError> {
    replay(
        rt,
        alloc,
        WORKERS,
        Height::H5,
        OtsType::W8,
        &[7; 48],
        pages,
        by,
        script,
    )
}

// Whether both have the same files.
fn are_same(a: &EpochFiles, b: &EpochFiles) -> bool {
    a.families.as_slice() == b.families.as_slice()
        && a.closing.as_slice() == b.closing.as_slice()
        && a.table.as_slice() == b.table.as_slice()
        && a.log.as_slice() == b.log.as_slice()
}

// Whether both printed the same and left the same.
fn agree(a: &Replayed, b: &Replayed) -> bool {
    a.key == b.key
        && a.text.as_slice() == b.text.as_slice()
        && a.handins.as_slice() == b.handins.as_slice()
        && a.epochs.len() == b.epochs.len()
        && a.epochs
            .iter()
            .zip(b.epochs.iter())
            .all(|(files, others)| are_same(files, others))
}

// What was printed.
fn printed(alloc: Global, done: &Replayed) -> Result<String, AllocError> {
    match std::str::from_utf8(done.text.as_slice()) {
        Ok(text) => String::from_str(alloc, text),
        Err(_) => String::from_str(alloc, "no text\n"),
    }
}

/// What both bodies print of the lines of a script with so many pages.
pub fn replay_both<R: Threads + Sync>(
    rt: &R,
    alloc: Global,
    lines: &str,
    pages: &str,
) -> Result<String, AllocError> {
    let Ok(pages) = pages.parse::<u32>() else {
        return String::from_str(alloc, "no number\n");
    };
    let Ok(script) = Script::read(alloc, lines.as_bytes()) else {
        return String::from_str(alloc, "no script\n");
    };
    let core = replayed(rt, alloc, &script, pages, By::Core)?;
    let shards = replayed(rt, alloc, &script, pages, By::Shards)?;
    let text = printed(alloc, &core)?;
    if agree(&core, &shards) {
        return format!(in alloc; "{text}both bodies\n");
    }
    let other = printed(alloc, &shards)?;
    format!(in alloc; "{text}the core\n{other}the shards\n")
}
