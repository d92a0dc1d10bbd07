//! What a call that stands in the store's life is answered.
ghost use Rattle.std.specs.Prelude.{◌≡◌};

use cp_bytes::Bytes;
use std::marker::Model;

/// The answer to a put or a get that has an entry: the attestation text to be signed, the leaf that
/// signs it, and at a get the block's content (this project's own).
#[derive(Debug, Drop)]
pub struct Booked {
    leaf: u32,
    text: [u8; 177],
    content: Bytes,
}

impl Model for Booked {
    ghost use Rattle.cp_core.specs.Booking.{Booking};

    ghost Value = { Booking };

    ghost view = { λ b. record { leaf = b.leaf; text = b.text; content = b.content } };
}

impl Booked {
    /// Puts the parts together. It takes no memory.
    pub fn new(leaf: u32, text: [u8; 177], content: Bytes) -> Booked
        ensures { result ≡ record { leaf = leaf; text = text; content = content } }
    {
        Booked {
            leaf,
            text,
            content,
        }
    }

    /// The number of the leaf that signs the attestation.
    pub fn leaf(&self) -> u32
        ensures { result ≡ self.now.leaf }
    {
        self.leaf
    }

    /// The attestation's text.
    pub fn text(&self) -> &[u8; 177]
        ensures { result.now ≡ self.now.text }
    {
        &self.text
    }

    /// The content that a get is answered; empty for a put.
    pub fn content(&self) -> &[u8]
        ensures { result.now ≡ self.now.content }
    {
        self.content.as_slice()
    }
}
