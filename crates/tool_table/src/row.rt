//! A row of the table.
use std::alloc::{AllocError, Global};

/// Which calls fail, and the words of the command.
#[derive(Drop)]
pub struct Row {
    /// The failing calls of the folder.
    pub folder: Vec<u64>,
    /// The failing calls of the vault's disk.
    pub disk: Vec<u64>,
    /// The failing calls of the sink.
    pub sink: Vec<u64>,
    /// The words of the command.
    pub words: Vec<String>,
}

// The number of a failing call; none where the word is no number.
fn failing(alloc: Global, word: Option<&str>) -> Result<Vec<u64>, AllocError> {
    let mut calls = Vec::new(alloc);
    if let Some(Ok(call)) = word.map(|word| word.parse::<u64>()) {
        calls.push(call)?;
    }
    Ok(calls)
}

impl Row {
    /// The row that the line spells.
    pub fn read(alloc: Global, line: &str) -> Result<Row, AllocError> {
        let mut parts = line.split(' ');
        let folder = failing(alloc, parts.next())?;
        let disk = failing(alloc, parts.next())?;
        let sink = failing(alloc, parts.next())?;
        let mut words = Vec::new(alloc);
        for word in parts {
            words.push(String::from_str(alloc, word)?)?;
        }
        Ok(Row {
            folder,
            disk,
            sink,
            words,
        })
    }
}
