//! The answer to a line.

use crate::chain::answer_to_chain;
use crate::form::Form;
use crate::lanes::answer_to_digests;
use crate::reading::answer_to_text;
use crate::signing::answer_to_signature;
use std::alloc::{AllocError, Global};
use std::thread::Threads;

// The bytes that the digits spell, where they do.
fn bytes_of(alloc: Global, digits: &str) -> Option<Vec<u8>> {
    match digits {
        "-" => Some(Vec::new(alloc)),
        _ => hex::decode(alloc, digits).ok(),
    }
}

// The form and the bytes of a row.
fn row_of(alloc: Global, line: &str) -> Option<(Form, Vec<u8>)> {
    let (word, digits) = line.split_once(' ')?;
    Some((Form::named(word)?, bytes_of(alloc, digits)?))
}

/// What is printed for the line.
pub fn answer<R: Threads + Sync>(rt: &R, alloc: Global, line: &str) -> Result<String, AllocError> {
    let Some((form, bytes)) = row_of(alloc, line) else {
        return String::from_str(alloc, "no row");
    };
    match form {
        Form::Chain => answer_to_chain(alloc, bytes.as_slice()),
        Form::Digests => answer_to_digests(alloc, bytes.as_slice()),
        Form::Signature => answer_to_signature(rt, alloc, bytes.as_slice()),
        _ => answer_to_text(alloc, form, bytes.as_slice()),
    }
}
