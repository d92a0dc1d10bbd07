//! A signed text.
ghost use Rattle.std.specs.Prelude.{◌≡◌};
ghost use Rattle.cp_statements.specs.Envelope.{envelope_at, envelope_of, leaf_named};

use crate::Malformed;
use cp_bytes::{Cut, Short};

/// A text and its signature, which borrow the bytes that they were read from.
#[derive(Clone, Copy, Debug, PartialEq, Eq)]
pub struct Envelope<'a> {
    /// The text, of fewer than 2^32 bytes.
    pub text: &'a [u8],
    /// The signature on it, of fewer than 2^32 bytes; its first four bytes name a leaf.
    pub signature: &'a [u8],
}

impl<'a> Envelope<'a> {
    ghost use Rattle.cp_bytes.specs.Reading.{Reads as ReadsPart};
    ghost use Rattle.cp_statements.specs.Reading.{Reads};
    ghost use Rattle.cp_statements.specs.View.{envelope_view};

    /// The envelope at the front of what is left: a text and a signature, each with a length of
    /// four bytes, big endian, before it. A refusal leaves the cursor as it was.
    #[tactic(auto, unfolding(crate::specs::Envelope::envelope_at))]
    pub fn take(cut: &mut Cut<'a>) -> Result<Envelope<'a>, Short>
        ensures { ReadsPart envelope_view cut.old cut.new result (envelope_at cut.old.rest) }
    {
        let mut ahead = cut.copy();
        let text = ahead.part()?;
        let signature = ahead.part()?;
        *cut = ahead;
        Ok(Envelope { text, signature })
    }

    /// The envelope that all of the bytes spell.
    #[tactic(auto, unfolding(crate::specs::Envelope::envelope_of))]
    pub fn read(bytes: &'a [u8]) -> Result<Envelope<'a>, Malformed>
        ensures { Reads envelope_view result (envelope_of bytes.now) }
    {
        let mut cut = Cut::new(bytes);
        let envelope = Envelope::take(&mut cut)?;
        cut.end()?;
        Ok(envelope)
    }

    /// The leaf that the signature names, its first four bytes, big endian (RFC 8554, section
    /// 5.4); none exactly where the signature has fewer than four bytes.
    pub fn leaf(&self) -> Option<u32>
        ensures { result ≡ leaf_named self.now.signature.now }
    {
        match self.signature {
            [a, b, c, d, ..] => Some(u32::from_be_bytes([*a, *b, *c, *d])),
            _ => None,
        }
    }
}
