//! A text that is read from its front.
ghost use Rattle.std.specs.Prelude.{◌≡◌, ◌≢◌, ◌-◌, ◌≤◌, [], ◌∷◌, length, MatchResult, IfOk};
ghost use Rattle.cp_bytes.specs.Cursor.{start, offset_of};
ghost use Rattle.cp_bytes.specs.Fields.{field_at, part_at};
ghost use Rattle.cp_bytes.specs.Fields.Field.{Byte, U32, U64, Raw};

use std::marker::Model;

/// The bytes end before the field that begins at the offset `at`, counted from the first byte of
/// the whole text.
#[derive(Clone, Copy, Debug, PartialEq, Eq)]
pub struct Short {
    pub at: u64,
}

/// What is left of a text. Contracts see the length of the whole text and the bytes left.
#[derive(Drop)]
pub struct Cut<'a> {
    total: u64,
    rest: &'a [u8],
}

impl<'a> Model for Cut<'a> {
    ghost use Rattle.std.specs.Prelude.{◌<◌, ◌≤◌, ◌^◌, length};
    ghost use Rattle.cp_bytes.specs.Cursor.{Cursor};

    ghost Value = { Cursor };

    ghost view = { λ c. record { total = c.total; rest = c.rest.now } };

    ghost invariant = { λ c. (length c.rest.now ≤ c.total) × (c.total < 2 ^ 64) };
}

impl<'a> Cut<'a> {
    ghost use Rattle.cp_bytes.specs.Reading.{Reads};

    /// The whole text.
    pub fn new(bytes: &'a [u8]) -> Cut<'a>
        ensures { result ≡ start bytes.now }
    {
        Cut {
            total: bytes.len() as u64,
            rest: bytes,
        }
    }

    /// The same text once more, read as far.
    pub fn copy(&self) -> Cut<'a>
        ensures { result ≡ self.now }
    {
        Cut {
            total: self.total,
            rest: self.rest,
        }
    }

    /// The offset of what is left.
    pub fn at(&self) -> u64
        ensures at { result ≡ offset_of self.now }
        ensures within { length self.now.rest ≤ self.now.total }
    {
        self.total - self.rest.len() as u64
    }

    /// What is left, which stays to be read.
    pub fn rest(&self) -> &'a [u8]
        ensures { result.now ≡ self.now.rest }
    {
        self.rest
    }

    /// All that is left, which is then read.
    pub fn take_rest(&mut self) -> &'a [u8]
        ensures bytes { result.now ≡ self.old.rest }
        ensures read { (self.new.rest ≡ []) × (self.new.total ≡ self.old.total) }
    {
        let rest = self.rest;
        self.rest = &rest[rest.len()..];
        rest
    }

    /// The next `n` bytes.
    #[tactic(auto, unfolding(crate::specs::Fields::field_at))]
    pub fn take(&mut self, n: u64) -> Result<&'a [u8], Short>
        ensures reads { Reads (λ x. x.now) self.old self.new result (field_at (Raw n) self.old.rest) }
        ensures long { IfOk result (λ x. length x.now ≡ n) }
    {
        if n > self.rest.len() as u64 {
            return Err(Short { at: self.at() });
        }
        let (front, rest) = self.rest.split_at(n as usize);
        self.rest = rest;
        Ok(front)
    }

    /// The next byte.
    #[tactic(auto, unfolding(crate::specs::Fields::field_at))]
    pub fn byte(&mut self) -> Result<u8, Short>
        ensures { Reads (λ x. x) self.old self.new result (field_at Byte self.old.rest) }
    {
        let bytes = self.take(1)?;
        Ok(bytes[0])
    }

    /// The next four bytes as a number, big endian.
    #[tactic(auto, unfolding(crate::specs::Fields::field_at))]
    pub fn be_u32(&mut self) -> Result<u32, Short>
        ensures { Reads (λ x. x) self.old self.new result (field_at U32 self.old.rest) }
    {
        let bytes = self.take(4)?;
        Ok(u32::from_be_bytes([bytes[0], bytes[1], bytes[2], bytes[3]]))
    }

    /// The next eight bytes as a number, big endian.
    #[tactic(auto, unfolding(crate::specs::Fields::field_at))]
    pub fn be_u64(&mut self) -> Result<u64, Short>
        ensures { Reads (λ x. x) self.old self.new result (field_at U64 self.old.rest) }
    {
        let bytes = self.take(8)?;
        Ok(u64::from_be_bytes([
            bytes[0], bytes[1], bytes[2], bytes[3], bytes[4], bytes[5], bytes[6], bytes[7],
        ]))
    }

    /// The next 32 bytes.
    pub fn array32(&mut self) -> Result<[u8; 32], Short>
        ensures { Reads (λ x. x) self.old self.new result (field_at (Raw 32) self.old.rest) }
    {
        let bytes = self.take(32)?;
        let mut out = [0u8; 32];
        out.copy_from_slice(bytes);
        Ok(out)
    }

    /// A length of four bytes, big endian, and that many bytes. Where the length is there and its
    /// bytes aren't, the refusal names the first byte after the length.
    #[tactic(auto, unfolding(crate::specs::Fields::part_at))]
    pub fn part(&mut self) -> Result<&'a [u8], Short>
        ensures { Reads (λ x. x.now) self.old self.new result (part_at self.old.rest) }
    {
        let rest = self.rest;
        let length = self.be_u32()?;
        match self.take(u64::from(length)) {
            Ok(part) => Ok(part),
            Err(short) => {
                self.rest = rest;
                Err(short)
            }
        }
    }

    /// Whether nothing is left; otherwise the offset of the first byte that is.
    pub fn end(self) -> Result<(), Short>
        ensures { MatchResult result (λ _. self.entry.rest ≡ []) (λ e. (self.entry.rest ≢ []) × (e.at ≡ offset_of self.entry)) }
    {
        if self.rest.is_empty() {
            Ok(())
        } else {
            Err(Short { at: self.at() })
        }
    }
}
