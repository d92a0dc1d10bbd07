//! Calls that are repeated in a segment.
ghost use Rattle.std.specs.Prelude.{◌≡◌, position, take};
ghost use Rattle.cp_chain.specs.Legal.{is_call};
ghost use Rattle.cp_chain.specs.Pass.{NoncesWithin};

use crate::Segment;
use cp_statements::Entry;

/// Where an entry's text has its client, four bytes, and its nonce, eight bytes behind it.
const CLIENT: usize = 29;

const NONCE: usize = 33;

const VERSION: usize = 41;

/// Whether the text is an entry of this call. Nearly all texts that aren't are told by the bytes of
/// the client and the nonce alone.
pub(crate) fn is_call(client: u32, nonce: u64, text: &[u8]) -> bool
    ensures { result ≡ is_call client nonce text.now }
{
    if text.len() < VERSION
        || !text[CLIENT..].starts_with(&client.to_be_bytes())
        || !text[NONCE..].starts_with(&nonce.to_be_bytes())
    {
        return false;
    }
    match Entry::read(text) {
        Ok(entry) => entry.client == client && entry.nonce == nonce,
        Err(_) => false,
    }
}

/// The first of the texts before `place` that is an entry of this call, where no entry before it has a
/// nonce above `top`. So a call with a greater nonce needs no look.
pub(crate) fn repeated(
    segment: &Segment,
    place: u64,
    top: u64,
    client: u32,
    nonce: u64,
) -> Option<usize>
    requires { NoncesWithin top (take place segment.now) }
    ensures { result ≡ position (is_call client nonce) (take place segment.now) }
{
    if nonce > top {
        return None;
    }
    earlier_call(segment, place, client, nonce)
}

/// The first of the texts before `place` that is an entry of this call.
fn earlier_call(segment: &Segment, place: u64, client: u32, nonce: u64) -> Option<usize>
    ensures { result ≡ position (is_call client nonce) (take place segment.now) }
{
    segment
        .texts()
        .take(place as usize)
        .position(|text| is_call(client, nonce, text))
}
