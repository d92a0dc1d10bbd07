//! One line, as it is read.
ghost use Rattle.std.specs.Prelude.{◌≡◌, ◌<◌, ◌≤◌, Some, None, MatchOption, IfSome, IfOk, length};
ghost use Rattle.cp_replay.specs.Words.{with_rest};
ghost use Rattle.cp_replay.specs.Script.{LineFits, at_of, close_of, get_of, line_at, line_of, put_of, without_of};
ghost use Rattle.cp_replay.specs.declared.line.Line.TheVariants.{Put};

use crate::words::{Words, place_of};
use crate::{Line, OutOfMemory};
use cp_bytes::Bytes;
use std::alloc::Global;

// What a put line says.
#[derive(Clone, Copy, Debug)]
struct PutWords<'a> {
    client: u32,
    block: u64,
    nonce: u64,
    version: u64,
    content: &'a [u8],
}

// What the words behind `put` say.
#[tactic(auto, unfolding(crate::specs::Script::put_of))]
fn put_words<'a>(words: Words<'a>) -> Option<PutWords<'a>>
    ensures read { MatchOption result (put_of words.entry ≡ None) (λ put. put_of words.entry
        ≡ Some (Put put.client put.block put.nonce put.version put.content.now)) }
    ensures short { IfSome result (λ put. length put.content.now ≤ 65536) }
{
    let mut words = words;
    let client = words.number(0, u64::from(u32::MAX))? as u32;
    let block = words.number(0, u64::MAX)?;
    let nonce = words.number(0, u64::MAX)?;
    let version = words.number(0, u64::MAX)?;
    let content = words.content()?;
    if !words.is_over() {
        return None;
    }
    Some(PutWords {
        client,
        block,
        nonce,
        version,
        content,
    })
}

// The line of the words behind `put`.
fn put_line(alloc: Global, words: Words<'_>) -> Result<Option<Line>, OutOfMemory>
    ensures read { IfOk result (λ line. line ≡ put_of words.entry) }
    ensures fits { IfOk result (λ line. IfSome line LineFits) }
{
    let Some(put) = put_words(words) else {
        return Ok(None);
    };
    let content = Vec::from_slice(alloc, put.content)?;
    Ok(Some(Line::Put {
        client: put.client,
        block: put.block,
        nonce: put.nonce,
        version: put.version,
        content: Bytes::from_vec(content),
    }))
}

// The line of the words behind `get`.
#[tactic(auto, unfolding(crate::specs::Script::get_of))]
fn get_line(words: Words<'_>) -> Option<Line>
    ensures read { result ≡ get_of words.entry }
    ensures fits { IfSome result LineFits }
{
    let mut words = words;
    let client = words.number(0, u64::from(u32::MAX))? as u32;
    let block = words.number(0, u64::MAX)?;
    let nonce = words.number(0, u64::MAX)?;
    if !words.is_over() {
        return None;
    }
    Some(Line::Get {
        client,
        block,
        nonce,
    })
}

// The line of the words behind `at`.
#[tactic(auto, unfolding(crate::specs::Script::at_of))]
fn at_line(words: Words<'_>) -> Option<Line>
    ensures read { result ≡ at_of words.entry }
    ensures fits { IfSome result LineFits }
{
    let mut words = words;
    let epoch = words.number(1, u64::MAX)?;
    if !words.is_over() {
        return None;
    }
    Some(Line::At { epoch })
}

// The line of the words behind `close without`.
#[tactic(auto, unfolding(crate::specs::Script::without_of))]
fn without_line(words: Words<'_>) -> Option<Line>
    ensures read { result ≡ without_of words.entry }
    ensures fits { IfSome result LineFits }
{
    let mut words = words;
    let client = words.number(0, u64::from(u32::MAX))? as u32;
    if !words.is_over() {
        return None;
    }
    Some(Line::CloseWithout { client })
}

// The line of the words behind `close`.
#[tactic(auto, unfolding(crate::specs::Script::close_of))]
fn close_line(words: Words<'_>) -> Option<Line>
    ensures read { result ≡ close_of words.entry }
    ensures fits { IfSome result LineFits }
{
    let mut words = words;
    match words.next() {
        None => Some(Line::Close),
        Some(b"without") => without_line(words),
        Some(_) => None,
    }
}

// The line that the bytes before its end spell; none where they spell none.
#[tactic(auto, unfolding(crate::specs::Script::line_of))]
fn read_line(alloc: Global, text: &[u8]) -> Result<Option<Line>, OutOfMemory>
    ensures read { IfOk result (λ line. line ≡ line_of text.now) }
    ensures fits { IfOk result (λ line. IfSome line LineFits) }
{
    let mut words = Words::of(text);
    let Some(name) = words.next() else {
        return Ok(None);
    };
    match name {
        b"put" => put_line(alloc, words),
        b"get" => Ok(get_line(words)),
        b"close" => Ok(close_line(words)),
        b"at" => Ok(at_line(words)),
        _ => Ok(None),
    }
}

// Takes the line at the front, which a line feed ends. None where there is none, or where it
// spells no line of a script.
#[tactic(auto, using(crate::proofs::Splits::splits), unfolding(crate::specs::Script::line_at))]
pub(crate) fn take_line(alloc: Global, rest: &mut &[u8]) -> Result<Option<Line>, OutOfMemory>
    ensures read { IfOk result (λ line. with_rest rest.new.now line ≡ line_at rest.old.now) }
    ensures fits { IfOk result (λ line. IfSome line LineFits) }
    ensures shorter { IfOk result (λ line.
        IfSome line (λ _. length rest.new.now < length rest.old.now)) }
{
    let bytes = *rest;
    let Some(end) = place_of(bytes, b'\n') else {
        return Ok(None);
    };
    let line = read_line(alloc, &bytes[..end])?;
    *rest = &bytes[end + 1..];
    Ok(line)
}
