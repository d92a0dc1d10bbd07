//! A row of the table.
use std::alloc::{AllocError, Global};

/// How a connection gives its bytes, and which they are.
#[derive(Drop)]
pub struct Row {
    /// The most bytes that one read gives.
    pub piece: usize,
    /// The number of the call that fails, if one does.
    pub failing: Option<u64>,
    /// What the connection sends.
    pub bytes: Vec<u8>,
}

// How often a part's text comes, and the text.
fn repeated(part: &str) -> (u32, &str) {
    if let Some((times, text)) = part.split_once('*') {
        if let Ok(times) = times.parse::<u32>() {
            return (times, text);
        }
    }
    (1, part)
}

// The bytes that the parts spell.
fn spelled(alloc: Global, parts: &str) -> Result<Vec<u8>, AllocError> {
    let parts = parts.replace(alloc, "\\r", "\r")?;
    let parts = parts.as_str().replace(alloc, "\\n", "\n")?;
    let mut bytes = Vec::new(alloc);
    for part in parts.as_str().split('|') {
        let (times, text) = repeated(part);
        for _ in 0..times {
            bytes.extend_from_slice(text.as_bytes())?;
        }
    }
    Ok(bytes)
}

impl Row {
    /// The row that the line spells. A piece that is no number has no bytes.
    pub fn read(alloc: Global, line: &str) -> Result<Row, AllocError> {
        let (piece, rest) = line.split_once(' ').unwrap_or((line, ""));
        let (failing, parts) = rest.split_once(' ').unwrap_or((rest, ""));
        Ok(Row {
            piece: piece.parse().unwrap_or(0),
            failing: failing.parse().ok(),
            bytes: spelled(alloc, parts)?,
        })
    }
}
