//! Why a desk refuses a request.
ghost use Rattle.std.specs.Prelude.{◌≡◌, ◌+◌, ◌<◌, ◌≤◌, ◌^◌, ◌++◌, [], codes, decimal, length, Some};
ghost use Rattle.cp_http.specs.Statuses.{IsStatus};

use cp_http::ShortText;
use std::fmt;

/// Why a desk refuses a request that a route takes.
#[derive(Clone, Copy, Debug, PartialEq, Eq)]
pub enum Refusal {
    /// The body isn't in the route's grammar, at this offset.
    Malformed { at: u64 },
    /// The request is for another store.
    WrongStore,
    /// The client isn't a writer of the family.
    NotAWriter { family: u32, client: u32 },
    /// The signature doesn't verify.
    BadSignature,
    /// The content doesn't have the hash that was signed.
    ContentMismatch,
    /// The epoch isn't closed; so many are.
    NotClosed { count: u64 },
    /// No verdict on the epoch is kept; so many are kept.
    NoVerdict { count: u64 },
    /// The request is for another epoch than the current one.
    WrongEpoch { current: u64 },
    /// The client's nonce was used for another request, at this position.
    NonceUsed { position: u64 },
    /// The version that a repeated get answered isn't the latest any more; this one is.
    Overtaken { latest: u64 },
    /// The version isn't the one after the latest.
    StaleVersion { latest: u64 },
    /// The content has so many bytes, which are more than a block takes.
    ContentTooLong { length: u64 },
    /// The leaves for attestations are used up.
    LeavesOver { drawn: u64, limit: u64 },
    /// The leaves for closings are used up.
    ClosingsOver { sealed: u64, limit: u64 },
    /// So many pages are free, and the content needs so many.
    PoolFull { free: u32, need: u32 },
    /// The box of hand-ins holds so many bytes and has no room for these.
    BoxFull { held: u64 },
    /// There is no memory left.
    OutOfMemory,
}

// Appends a field's name, which ends with `=`, and its number.
fn push_number(text: &mut ShortText, field: &[u8], number: u64)
    requires { length text.old + length field.now + 20 ≤ 256 }
    ensures text { text.new ≡ text.old ++ field.now ++ decimal number }
    ensures size { length text.new ≤ length text.old + length field.now + 20 }
{
    text.push(field);
    text.push_decimal(number);
}

impl Refusal {
    ghost use Rattle.std.specs.List.{AllByRecursion};
    ghost use Rattle.cp_session.specs.Refusals.{status_of, text_of, numbers_of};

    /// The status of the response that tells it.
    pub fn status(self) -> u16
        ensures value { result ≡ status_of self }
        ensures known { IsStatus result }
    {
        match self {
            Refusal::Malformed { .. } | Refusal::WrongStore | Refusal::NotAWriter { .. } => 400,
            Refusal::BadSignature | Refusal::ContentMismatch => 400,
            Refusal::NotClosed { .. } | Refusal::NoVerdict { .. } => 404,
            Refusal::WrongEpoch { .. } | Refusal::NonceUsed { .. } => 409,
            Refusal::Overtaken { .. } | Refusal::StaleVersion { .. } => 409,
            Refusal::ContentTooLong { .. } => 413,
            Refusal::LeavesOver { .. } | Refusal::ClosingsOver { .. } => 503,
            Refusal::PoolFull { .. } | Refusal::BoxFull { .. } => 503,
            Refusal::OutOfMemory => 507,
        }
    }

    /// Its name and, for each of its numbers, a space, the field's name, `=` and the number in decimal
    /// digits, as in `NotAWriter family=0 client=9`. It takes no memory.
    #[tactic(auto, unfolding(crate::specs::Refusals::text_of))]
    pub fn text(self) -> ShortText
        ensures text { result ≡ text_of self }
        ensures size { length result ≤ 100 }

        // Its numbers are below 2 ^ 64, as those of a u64 are.
        ensures numbers { AllByRecursion (λ n. n < 2 ^ 64) (numbers_of self) }
    {
        let mut text = ShortText::new();
        match self {
            Refusal::Malformed { at } => push_number(&mut text, b"Malformed at=", at),
            Refusal::WrongStore => text.push(b"WrongStore"),
            Refusal::NotAWriter { family, client } => {
                push_number(&mut text, b"NotAWriter family=", family as u64);
                push_number(&mut text, b" client=", client as u64);
            }
            Refusal::BadSignature => text.push(b"BadSignature"),
            Refusal::ContentMismatch => text.push(b"ContentMismatch"),
            Refusal::NotClosed { count } => push_number(&mut text, b"NotClosed count=", count),
            Refusal::NoVerdict { count } => push_number(&mut text, b"NoVerdict count=", count),
            Refusal::WrongEpoch { current } => push_number(
                &mut text,
                b"WrongEpoch current=",
                current,
            ),
            Refusal::NonceUsed { position } => push_number(
                &mut text,
                b"NonceUsed position=",
                position,
            ),
            Refusal::Overtaken { latest } => push_number(&mut text, b"Overtaken latest=", latest),
            Refusal::StaleVersion { latest } => push_number(
                &mut text,
                b"StaleVersion latest=",
                latest,
            ),
            Refusal::ContentTooLong { length } => push_number(
                &mut text,
                b"ContentTooLong length=",
                length,
            ),
            Refusal::LeavesOver { drawn, limit } => {
                push_number(&mut text, b"LeavesOver drawn=", drawn);
                push_number(&mut text, b" limit=", limit);
            }
            Refusal::ClosingsOver { sealed, limit } => {
                push_number(&mut text, b"ClosingsOver sealed=", sealed);
                push_number(&mut text, b" limit=", limit);
            }
            Refusal::PoolFull { free, need } => {
                push_number(&mut text, b"PoolFull free=", free as u64);
                push_number(&mut text, b" need=", need as u64);
            }
            Refusal::BoxFull { held } => push_number(&mut text, b"BoxFull held=", held),
            Refusal::OutOfMemory => text.push(b"OutOfMemory"),
        }
        text
    }
}

impl fmt::Display for Refusal {
    ghost use Rattle.cp_session.specs.Refusals.{text_of};

    ghost output = { λ refusal. Some (text_of refusal) };

    fn fmt<W: fmt::Write>(&self, f: &mut fmt::Formatter<W>) -> fmt::Result {
        match str::from_utf8(self.text().as_slice()) {
            Ok(text) => f.write_str(text),
            Err(_) => Err(fmt::Error),
        }
    }
}
