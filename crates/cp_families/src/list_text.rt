//! The text of a families list.
ghost use Rattle.std.specs.Prelude.{◌≡◌, Ok, Err, IsOk, MatchResult};
ghost use Rattle.cp_families.specs.Families.{families_of};

use crate::Families;
use cp_statements::Malformed;
use std::marker::Model;

/// A text that spells a families list. Contracts see its bytes, and whoever holds one holds the fact
/// that they read.
#[derive(Drop)]
pub struct ListText {
    text: Vec<u8>,
}

impl Model for ListText {
    ghost use Rattle.std.specs.Prelude.{ℕ, List, IsOk};
    ghost use Rattle.cp_families.specs.Families.{families_of};

    ghost Value = { List ℕ };

    ghost view = { λ s. s.text.items };

    ghost invariant = { λ s. IsOk (families_of s.text.items) };
}

impl ListText {
    /// The text of these bytes, which must all spell one list. `Malformed` comes exactly where
    /// `Families::read` refuses them, at the same offset. It takes no memory.
    pub fn read(bytes: Vec<u8>) -> Result<ListText, Malformed>
        ensures { MatchResult result
            (λ text. (text ≡ bytes.items) × IsOk (families_of bytes.items))
            (λ malformed. families_of bytes.items ≡ Err malformed.at) }
    {
        Families::read(bytes.as_slice())?;
        Ok(ListText { text: bytes })
    }

    /// The bytes.
    pub fn as_slice(&self) -> &[u8]
        ensures bytes { result.now ≡ self.now }
        ensures reads { IsOk (families_of self.now) }
    {
        self.text.as_slice()
    }

    /// The list that they spell, which isn't read anew. It takes no memory.
    pub fn families(&self) -> Families<'_>
        ensures { families_of self.now ≡ Ok result }
    {
        Families::in_text(self.text.as_slice())
    }
}
