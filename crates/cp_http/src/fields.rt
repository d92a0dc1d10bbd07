//! What the fields of a head say.
ghost use Rattle.std.specs.Prelude.{◌≡◌, ◌↔◌, ◌<◌, ◌≤◌, ◌∷◌, [], ◌++◌, List, length, map, codes, take, drop, IsTrue, MatchOption, Some, None};
ghost use Rattle.std.specs.List.{list_any, list_all};
ghost use Rattle.std.specs.Str.{str_eq_ignore_ascii_case};
ghost use Rattle.std.specs.Str.Parse.{AllDigits, digits_value};
ghost use Rattle.httparse.specs.Borrowed.{header_parts};
ghost use Rattle.httparse.specs.Grammar.{is_ows, skip_ows};
ghost use Rattle.cp_http.specs.Fields.{values_of, IsLength, length_in, HasGoodLength, is_close, close_from, has_close};

use httparse::Header;

// Whether two texts are the same but for ASCII case.
#[tactic(auto, using(crate::proofs::Cases::cases))]
fn is_word(word: &[u8], text: &[u8]) -> bool
    ensures { result ≡ str_eq_ignore_ascii_case text.now word.now }
{
    text.eq_ignore_ascii_case(word)
}

// The value of the first field with this name, and the fields after it.
#[tactic(auto, unfolding(crate::specs::Fields::values_of))]
pub(crate) fn find<'h, 'b>(
    fields: &'h [Header<'b>],
    name: &str,
) -> Option<(&'b [u8], &'h [Header<'b>])>
    ensures { MatchOption result (values_of name.now (map header_parts fields.now) ≡ [])
        (λ r. values_of name.now (map header_parts fields.now) ≡ r.0.now ∷ values_of name.now (map header_parts r.1.now)) }
{
    let mut rest = fields;
    while let [first, more @ ..] = rest {
        rest = more;
        if is_word(name.as_bytes(), first.name.as_bytes()) {
            return Some((first.value, rest));
        }
    }
    None
}

// Whether all bytes are digits.
fn all_digits(text: &[u8]) -> bool
    ensures { IsTrue result ↔ AllDigits 10 text.now }
{
    let mut rest = text;
    while let [first, more @ ..] = rest {
        if *first < b'0' || *first > b'9' {
            return false;
        }
        rest = more;
    }
    true
}

// The length that a value of Content-Length gives.
fn length_of(text: &[u8]) -> Option<u64>
    ensures { MatchOption result (¬ IsLength text.now) (λ n. IsLength text.now × (n ≡ digits_value 10 text.now)) }
{
    if text.is_empty() || text.len() > 19 || !all_digits(text) {
        return None;
    }
    let mut value = 0u64;
    for i in 0..text.len() {
        value = value * 10 + (text[i] - b'0') as u64;
    }
    Some(value)
}

// The length that the fields give, or nothing where they give none that is good.
pub(crate) fn content_length(fields: &[Header<'_>]) -> Option<Option<u64>>
    ensures { MatchOption result (¬ HasGoodLength (values_of (codes "content-length") (map header_parts fields.now)))
        (λ n. HasGoodLength (values_of (codes "content-length") (map header_parts fields.now)) × (n ≡ length_in (values_of (codes "content-length") (map header_parts fields.now)))) }
{
    let Some((value, rest)) = find(fields, "content-length") else {
        return Some(None);
    };
    if find(rest, "content-length").is_some() {
        return None;
    }
    match length_of(value) {
        Some(length) => Some(Some(length)),
        None => None,
    }
}

// The text without the spaces and tabs in front.
fn skip_ows(text: &[u8]) -> &[u8]
    ensures { result.now ≡ skip_ows text.now }
{
    let mut rest = text;
    while let [b' ' | b'\t', more @ ..] = rest {
        rest = more;
    }
    rest
}

// Whether all bytes are spaces and tabs.
fn all_ows(text: &[u8]) -> bool
    ensures { result ≡ list_all is_ows text.now }
{
    let mut rest = text;
    while let [b' ' | b'\t', more @ ..] = rest {
        rest = more;
    }
    rest.is_empty()
}

// Whether a part between commas is `close`.
fn is_close(part: &[u8]) -> bool
    ensures { result ≡ is_close part.now }
{
    let word = skip_ows(part);
    if word.len() < 5 {
        return false;
    }
    is_word(b"close", &word[..5]) && all_ows(&word[5..])
}

// Whether one of the parts between commas is `close`.
#[tactic(auto, unfolding(crate::specs::Fields::close_from))]
fn has_close(value: &[u8]) -> bool
    ensures { result ≡ has_close value.now }
{
    let mut start = 0;
    for i in 0..value.len() {
        if value[i] == b',' {
            if is_close(&value[start..i]) {
                return true;
            }
            start = i + 1;
        }
    }
    is_close(&value[start..])
}

// Whether a Connection field asks for the end of the connection.
#[tactic(auto, unfolding(crate::specs::Fields::values_of))]
pub(crate) fn closes(fields: &[Header<'_>]) -> bool
    ensures { result ≡ list_any has_close (values_of (codes "connection") (map header_parts fields.now)) }
{
    let mut rest = fields;
    while let [first, more @ ..] = rest {
        rest = more;
        if is_word(b"connection", first.name.as_bytes()) && has_close(first.value) {
            return true;
        }
    }
    false
}
