//! Why a client asks nothing, and why it doesn't accept an answer.

use crate::Field;
use cp_bytes::{OutOfMemory, Short};
use cp_statements::Malformed;

/// Why a put isn't asked.
#[derive(Clone, Copy, Debug, PartialEq, Eq)]
pub enum AskRefusal {
    /// No leaf is left in the range.
    NoLeaf,
    /// Memory is wanted.
    OutOfMemory,
}

impl From<OutOfMemory> for AskRefusal {
    ghost use Rattle.std.specs.Prelude.{◌≡◌};
    ghost use Rattle.cp_client.specs.declared.refusals.AskRefusal.TheVariants.{OutOfMemory as wants_memory};

    ghost from_gives = { λ _ refusal. refusal ≡ wants_memory };

    fn from(_: OutOfMemory) -> AskRefusal {
        AskRefusal::OutOfMemory
    }
}

/// Why an answer isn't accepted. Where several causes stand together the first in this order is named.
#[derive(Clone, Copy, Debug, PartialEq, Eq)]
pub enum ClientRefusal {
    /// The reply isn't an attestation's envelope and content; `at` is the offset of the first byte
    /// that doesn't fit, counted from the attestation's first byte where it is in it.
    Malformed { at: u64 },
    /// The store's key doesn't verify the signature.
    BadSignature,
    /// It answers another call: this is the first field that differs.
    OtherCall { field: Field },
    /// A get's content doesn't have the attested hash, before the first put isn't empty or its hash
    /// isn't zero; or a put's reply has content.
    ContentMismatch,
    /// The head isn't that of the attested entry, at a put with the signature that was asked.
    BadHead,
}

impl From<Short> for ClientRefusal {
    ghost use Rattle.std.specs.Prelude.{◌≡◌};
    ghost use Rattle.cp_client.specs.declared.refusals.ClientRefusal.TheVariants.{Malformed as malformed_at};

    ghost from_gives = { λ short refusal. refusal ≡ malformed_at short.at };

    fn from(short: Short) -> ClientRefusal {
        ClientRefusal::Malformed { at: short.at }
    }
}

impl From<Malformed> for ClientRefusal {
    ghost use Rattle.std.specs.Prelude.{◌≡◌};
    ghost use Rattle.cp_client.specs.declared.refusals.ClientRefusal.TheVariants.{Malformed as malformed_at};

    ghost from_gives = { λ malformed refusal. refusal ≡ malformed_at malformed.at };

    fn from(malformed: Malformed) -> ClientRefusal {
        ClientRefusal::Malformed { at: malformed.at }
    }
}
