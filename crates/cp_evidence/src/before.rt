//! What stands before an epoch's closing.
ghost use Rattle.std.specs.Prelude.{◌≡◌};
ghost use Rattle.cp_statements.specs.View.{envelope_view};
ghost use Rattle.cp_evidence.specs.Conditions.{is_table_before, link_from};
ghost use Rattle.cp_evidence.specs.Material.{before_in, envelope_before};
ghost use Rattle.cp_evidence.specs.View.{before_view};

use cp_bytes::digest;
use cp_statements::{Closing, Envelope};

/// A closing and the envelope that it was read from.
#[derive(Clone, Copy)]
pub struct SignedClosing<'a> {
    /// The envelope.
    pub envelope: Envelope<'a>,
    /// What its text spells.
    pub closing: Closing,
}

/// What stands before an epoch's closing (this project's own).
#[derive(Clone, Copy)]
pub enum Before<'a> {
    /// Nothing, before the closing of epoch 1.
    Nothing,
    /// The closing of the epoch before.
    Closing(SignedClosing<'a>),
}

impl<'a> Before<'a> {
    /// The envelope that stands for it in evidence, with two empty parts where there is none.
    pub fn envelope(&self) -> Envelope<'a>
        ensures { envelope_view result ≡ envelope_before (before_view self.now) }
    {
        match self {
            Before::Nothing => Envelope {
                text: &[],
                signature: &[],
            },
            Before::Closing(signed) => signed.envelope,
        }
    }

    /// The link to it: SHA-256 of its text, and 32 zero bytes where there is none.
    pub fn link(&self) -> [u8; 32]
        ensures { result
            ≡ link_from (envelope_before (before_view self.now)) (before_in (before_view self.now)) }
    {
        match self {
            Before::Nothing => [0; 32],
            Before::Closing(signed) => digest(signed.envelope.text),
        }
    }

    /// Whether these bytes are the table that it names; there are none where there is no closing.
    pub fn names_table(&self, bytes: &[u8]) -> bool
        ensures { result ≡ is_table_before bytes.now (before_in (before_view self.now)) }
    {
        match self {
            Before::Nothing => bytes.is_empty(),
            Before::Closing(signed) => digest(bytes) == signed.closing.table,
        }
    }
}
