//! Reading the head of a request.
ghost use Rattle.std.specs.Prelude.{◌≡◌, ◌≢◌, ◌↔◌, ℕ, ◌+◌, ◌-◌, ◌<◌, ◌≤◌, List, [], length, take, slice_index, IsTrue, MatchOption, Option, Some, None};
ghost use Rattle.cp_http.specs.Heads.{IsBreak, HasNoBreak, NoBreakBelow, EndsAfter, IsBareFeed, window, HoldsHead, HoldsNoHead};
ghost use Rattle.cp_http.specs.Reading.{IsReadAs, head_content};

use crate::fields::{closes, content_length, find};
use crate::head_reads::HeadRead;
use crate::heads::Head;
use httparse::{EMPTY_HEADER, Header, Request, Status};

/// The most bytes of a head, with the `\r\n\r\n` that ends it (this project's own).
pub const HEAD_LIMIT: usize = 16_384;

// The bytes in which a head must end.
#[tactic(auto, using(crate::proofs::HeadLemmas::windows))]
fn window(bytes: &[u8]) -> &[u8]
    ensures { result.now ≡ window bytes.now }
{
    if bytes.len() > HEAD_LIMIT {
        &bytes[..HEAD_LIMIT]
    } else {
        bytes
    }
}

// The number of bytes up to the first `\r\n\r\n`, with it, where none begins below `from`.
fn break_end(bytes: &[u8], from: usize) -> Option<usize>
    requires within { from ≤ length bytes.now }
    requires below { NoBreakBelow bytes.now from }
    ensures { MatchOption result (HasNoBreak bytes.now) (λ n. EndsAfter bytes.now n) }
{
    let mut i = from;
    while bytes.len() - i >= 4 {
        if bytes[i] == b'\r'
            && bytes[i + 1] == b'\n'
            && bytes[i + 2] == b'\r'
            && bytes[i + 3] == b'\n'
        {
            return Some(i + 4);
        }
        i += 1;
    }
    None
}

/// The number of bytes of the head at the front, up to the first `\r\n\r\n` within the first 16,384
/// bytes and with it, or `None` where they hold none.
///
/// It looks at the bytes behind the first `from` alone, below which none may begin. So a caller to
/// whom the bytes come in pieces looks at each of them once.
#[tactic(auto, using(crate::proofs::HeadLemmas::windows))]
pub fn head_end(bytes: &[u8], from: usize) -> Option<usize>
    requires within { from ≤ length (window bytes.now) }
    requires below { NoBreakBelow (window bytes.now) from }
    ensures { MatchOption result (HasNoBreak (window bytes.now)) (λ n. EndsAfter (window bytes.now) n) }
{
    break_end(window(bytes), from)
}

// Whether a line feed stands there without a carriage return right before it.
fn has_bare_feed(text: &[u8]) -> bool
    ensures { IsTrue result ↔ ((k : ℕ) × IsBareFeed text.now k) }
{
    let mut i = 1;
    while i < text.len() {
        if text[i] == b'\n' && text[i - 1] != b'\r' {
            return true;
        }
        i += 1;
    }
    false
}

// Whether the minor version is 1.
fn is_one(version: Option<u8>) -> bool
    ensures { IsTrue result ↔ (version ≡ Some 1) }
{
    version == Some(1)
}

// The head that a text is, by way of these 64 places for its fields.
fn parse_into<'a>(text: &'a [u8], fields: &mut [Header<'a>]) -> Option<Head<'a>>
    requires some { 4 ≤ length text.now }
    requires room { length fields.old ≡ 64 }
    ensures { MatchOption result (HoldsNoHead text.now) (λ head. HoldsHead text.now (head_content head)) }
{
    if text[0] == b'\r' || text[0] == b'\n' || has_bare_feed(text) {
        return None;
    }
    let mut request = Request::new(fields);
    let Ok(Status::Complete(length)) = request.parse(text) else {
        return None;
    };
    if length != text.len() {
        return None;
    }
    if !is_one(request.version) {
        return None;
    }
    let (Some(method), Some(path)) = (request.method, request.path) else {
        return None;
    };
    let headers: &[Header<'a>] = request.headers;
    if headers.len() > 64 {
        return None;
    }
    if let Some(_) = find(headers, "transfer-encoding") {
        return None;
    }
    match content_length(headers) {
        Some(content_length) => Some(Head {
            method,
            path,
            content_length,
            close: closes(headers),
        }),
        None => None,
    }
}

/// The head that a text is, from its first byte to the `\r\n\r\n` that ends it, or `None` where it is
/// none that this profile takes. The text has at least the four bytes of that end.
pub fn parse_head<'a>(text: &'a [u8]) -> Option<Head<'a>>
    requires { 4 ≤ length text.now }
    ensures { MatchOption result (HoldsNoHead text.now) (λ head. HoldsHead text.now (head_content head)) }
{
    let mut fields = [EMPTY_HEADER; 64];
    parse_into(text, &mut fields)
}

/// What stands at the front of the bytes where the head of a request is due. It takes no memory.
///
/// A head ends with the first `\r\n\r\n`, which has to stand within the first 16,384 bytes. It is a
/// request's head by RFC 9112 as `httparse` reads it, of version 1.1, with at most 64 fields, no
/// Transfer-Encoding, and at most one Content-Length, of 1 to 19 digits. This project's own: each
/// line ends with `\r\n`, and no empty line stands before the request line.
pub fn read_head<'a>(bytes: &'a [u8]) -> HeadRead<'a>
    ensures { IsReadAs bytes.now result }
{
    match head_end(bytes, 0) {
        None => {
            if bytes.len() < HEAD_LIMIT {
                HeadRead::Partial
            } else {
                HeadRead::HeadTooLong
            }
        }
        Some(end) => match parse_head(&window(bytes)[..end]) {
            Some(head) => HeadRead::Whole {
                head,
                length: end as u64,
            },
            None => HeadRead::BadHead,
        },
    }
}
