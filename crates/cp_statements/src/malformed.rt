//! Why bytes are no text of a form.
ghost use Rattle.std.specs.Prelude.{◌≡◌};

use cp_bytes::Short;

/// The bytes aren't in the grammar. `at` is the offset of the first byte of the first field that
/// doesn't fit, is outside its range or breaks the stated order; for bytes past the end it is the
/// offset of the first of them.
#[derive(Clone, Copy, Debug, PartialEq, Eq)]
pub struct Malformed {
    pub at: u64,
}

impl From<Short> for Malformed {
    ghost from_gives = { λ short malformed. malformed ≡ record { at = short.at } };

    fn from(short: Short) -> Malformed {
        Malformed { at: short.at }
    }
}
