//! Beginnings of closings at a closer.

use cp_closer::Closer;
use cp_families::{ListText, SharedList};
use std::alloc::{AllocError, Global};

// A families list without a row.
const FIRST: [u8; 8] = *b"CPf1\0\0\0\0";

// A families list with one row: client 1 in family 0, and a key of height 5 and width 8 that is all zeros.
fn other(alloc: Global) -> Result<Vec<u8>, AllocError> {
    let mut text = Vec::from_slice(alloc, b"CPf1\0\0\0\x01\0\0\0\0\0\0\0\x01")?;
    text.extend_from_slice(b"\0\0\0\x05\0\0\0\x04")?;
    text.extend_from_slice(&[0; 48])?;
    Ok(text)
}

// The list that the bytes spell, to be shared.
fn shared(alloc: Global, text: Vec<u8>) -> Result<Option<SharedList>, AllocError> {
    let Ok(list) = ListText::read(text) else {
        return Ok(None);
    };
    let list = SharedList::new(alloc, list)?;
    Ok(Some(list))
}

// The list of this name, if there is one.
fn named(alloc: Global, name: &str) -> Result<Option<SharedList>, AllocError> {
    match name {
        "first" => shared(alloc, Vec::from_slice(alloc, &FIRST)?),
        "other" => shared(alloc, other(alloc)?),
        _ => Ok(None),
    }
}

// The answer to a line, as a line says it.
fn answer(alloc: Global, closer: &mut Closer, line: &str) -> Result<String, AllocError> {
    let (number, name) = line.split_once(' ').unwrap_or((line, ""));
    let Ok(epoch) = number.parse::<u64>() else {
        return String::from_str(alloc, "no epoch\n");
    };
    let next = named(alloc, name)?;
    let answer = closer.begin(epoch, next);
    format!(in alloc; "{answer:?}\n")
}

/// What a closer of a store with 28 leaves for attestations and 4 for closings answers to the lines.
pub fn beginnings(alloc: Global, lines: &str) -> Result<String, AllocError> {
    let mut answers = String::new(alloc);
    let Some(first) = shared(alloc, Vec::from_slice(alloc, &FIRST)?)? else {
        return Ok(answers);
    };
    let mut closer = Closer::new(alloc, [7; 32], 32, 4, first);
    for line in lines.lines() {
        let answer = answer(alloc, &mut closer, line)?;
        answers.push_str(answer.as_str())?;
    }
    Ok(answers)
}
