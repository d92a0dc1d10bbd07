//! What a connection got.
use crate::desk::Echo;
use crate::link::Pieces;
use crate::row::Row;
use cp_outside::MemLink;
use cp_session::serve_connection;
use std::alloc::{AllocError, Global};
use std::sync::Wait;

// The room of a connection for what is written to it.
const ROOM: u64 = 0x20_0000;

// The most bytes that are printed.
const SHOWN: usize = 0x1000;

// The connection of a row.
fn connection(alloc: Global, row: Row) -> Result<Pieces, AllocError> {
    let Row {
        piece,
        failing,
        bytes,
    } = row;
    let mut calls = Vec::new(alloc);
    if let Some(call) = failing {
        calls.push(call)?;
    }
    Ok(Pieces {
        link: MemLink::new(alloc, bytes, ROOM, calls)?,
        most: piece,
    })
}

// The bytes, or how many they are.
fn shown(alloc: Global, bytes: &[u8]) -> Result<String, AllocError> {
    if bytes.len() > SHOWN {
        return format!(in alloc; "{} bytes", bytes.len());
    }
    match str::from_utf8(bytes) {
        Ok(text) => format!(in alloc; "{text:?}"),
        Err(_) => String::from_str(alloc, "no text"),
    }
}

/// What is printed for the line: the session's answer, and what was written to the connection.
pub fn answer<R: Wait>(rt: &R, alloc: Global, line: &str) -> Result<String, AllocError> {
    let mut link = connection(alloc, Row::read(alloc, line)?)?;
    let result = serve_connection(rt, alloc, &mut link, &mut Echo);
    let shown = shown(alloc, link.link.held())?;
    format!(in alloc; "{result:?} {shown}")
}
