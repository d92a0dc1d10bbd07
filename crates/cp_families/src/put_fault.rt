//! Why a put is refused.
use cp_statements::Malformed;

/// Why a put's envelope isn't let in (this project's own). Where several causes stand together the
/// first in this order is named.
#[derive(Clone, Copy, Debug, PartialEq, Eq)]
pub enum PutFault {
    /// The text is no put request; `at` is the offset of the first byte of the text that doesn't fit.
    Malformed { at: u64 },
    /// The request names another store.
    WrongStore,
    /// The list has no row for this family, which is the block's, and this client.
    NotAWriter { family: u32, client: u32 },
    /// The signature isn't one of the writer's key on the request.
    BadSignature,
}

impl From<Malformed> for PutFault {
    ghost use Rattle.std.specs.Prelude.{◌≡◌};
    ghost use Rattle.cp_families.specs.declared.put_fault.PutFault.TheVariants.{Malformed as malformed_at};

    ghost from_gives = { λ malformed fault. fault ≡ malformed_at malformed.at };

    fn from(malformed: Malformed) -> PutFault {
        PutFault::Malformed { at: malformed.at }
    }
}
