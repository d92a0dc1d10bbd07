//! Writing responses.
ghost use Rattle.std.specs.Prelude.{◌≡◌, ◌+◌, ◌<◌, ◌≤◌, ◌++◌, [], length, take, codes, decimal, OnOk, OnErr, IsOk, vec_len, vec_capacity, option_map};
ghost use Rattle.http.specs.StatusCode.{reason_phrase};
ghost use Rattle.cp_http.specs.Statuses.{IsStatus, phrase, status_line, type_line, length_line, last_line};
ghost use Rattle.cp_http.specs.Responses.{allow_line, response_head, response};

use crate::OutOfMemory;
use crate::allows::Allow;
use crate::short_texts::ShortText;
use http::StatusCode;

// The phrase of a status.
#[tactic(auto, using(crate::proofs::Phrases::phrases), unfolding(crate::specs::Statuses::phrase))]
fn phrase(status: u16) -> &'static str
    requires { IsStatus status }
    ensures value { result.now ≡ phrase status }
    ensures short { length result.now ≤ 20 }
{
    match StatusCode::from_u16(status) {
        Ok(code) => code.canonical_reason().unwrap_or(""),
        Err(_) => "",
    }
}

fn push_status_line(text: &mut ShortText, status: u16)
    requires status { IsStatus status }
    requires room { length text.old + 60 ≤ 256 }
    ensures text { text.new ≡ text.old ++ status_line status }
    ensures size { length text.new ≤ length text.old + 60 }
{
    text.push(b"HTTP/1.1 ");
    text.push_decimal(status as u64);
    text.push(b" ");
    text.push(phrase(status).as_bytes());
    text.push(b"\r\n");
}

#[tactic(auto, unfolding(crate::specs::Statuses::type_line))]
fn push_type_line(text: &mut ShortText, status: u16)
    requires { length text.old + 40 ≤ 256 }
    ensures text { text.new ≡ text.old ++ type_line status }
    ensures size { length text.new ≤ length text.old + 40 }
{
    if status == 200 {
        text.push(b"Content-Type: application/octet-stream\r\n");
    } else {
        text.push(b"Content-Type: text/plain\r\n");
    }
}

#[tactic(auto, unfolding(crate::specs::Responses::allow_line))]
fn push_allow_line(text: &mut ShortText, allow: Allow)
    requires { length text.old + 13 ≤ 256 }
    ensures text { text.new ≡ text.old ++ allow_line allow }
    ensures size { length text.new ≤ length text.old + 13 }
{
    match allow {
        Allow::Nothing => {}
        Allow::Get => text.push(b"Allow: GET\r\n"),
        Allow::Post => text.push(b"Allow: POST\r\n"),
    }
}

fn push_length_line(text: &mut ShortText, body_length: u64)
    requires { length text.old + 38 ≤ 256 }
    ensures text { text.new ≡ text.old ++ length_line body_length }
    ensures size { length text.new ≤ length text.old + 38 }
{
    text.push(b"Content-Length: ");
    text.push_decimal(body_length);
    text.push(b"\r\n");
}

#[tactic(auto, unfolding(crate::specs::Statuses::last_line))]
fn push_last_line(text: &mut ShortText, last: bool)
    requires { length text.old + 19 ≤ 256 }
    ensures text { text.new ≡ text.old ++ last_line last }
    ensures size { length text.new ≤ length text.old + 19 }
{
    if last {
        text.push(b"Connection: close\r\n");
    }
}

/// The bytes of a response up to its body of so many bytes (RFC 9112, section 4). It takes no memory.
///
/// The status is one of those that this project's responses have. `last` says that the connection
/// ends with this response.
#[tactic(auto, unfolding(crate::specs::Responses::response_head))]
pub fn response_head(status: u16, allow: Allow, body_length: u64, last: bool) -> ShortText
    requires { IsStatus status }
    ensures text { result ≡ response_head status allow body_length last }
    ensures size { length result ≤ 172 }
{
    let mut text = ShortText::new();
    push_status_line(&mut text, status);
    push_type_line(&mut text, status);
    push_allow_line(&mut text, allow);
    push_length_line(&mut text, body_length);
    push_last_line(&mut text, last);
    text.push(b"\r\n");
    text
}

/// Appends a whole response to `out`. Where there is no memory for it, `out` keeps what it holds; it
/// has always enough where its capacity leaves room for the body and 172 bytes more.
pub fn response(
    status: u16,
    allow: Allow,
    body: &[u8],
    last: bool,
    out: &mut Vec<u8>,
) -> Result<(), OutOfMemory>
    requires { IsStatus status }
    ensures ok { OnOk result (out.new.items ≡ out.old.items ++ response status allow body.now last) }
    ensures err { OnErr result (out.new.items ≡ out.old.items) }
    ensures room { vec_len out.old + 172 + length body.now ≤ vec_capacity out.old → IsOk result }
{
    let head = response_head(status, allow, body.len() as u64, last);
    let before = out.len();
    out.extend_from_slice(head.as_slice())?;
    if out.extend_from_slice(body).is_err() {
        out.truncate(before);
        return Err(OutOfMemory);
    }
    Ok(())
}
