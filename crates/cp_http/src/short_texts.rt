//! Short texts that take no memory.
ghost use Rattle.std.specs.Prelude.{◌≡◌, ◌+◌, ◌-◌, ◌<◌, ◌≤◌, ◌++◌, ◌∷◌, [], List, ℕ, length, take, decimal};

use std::marker::Model;

/// A text of at most 256 bytes, which lies where it is declared and takes no memory.
#[derive(Drop)]
pub struct ShortText {
    bytes: [u8; 256],
    used: usize,
}

impl Model for ShortText {
    ghost Value = { List ℕ };

    ghost view = { λ text. take text.used text.bytes };

    ghost invariant = { λ text. text.used ≤ 256 };
}

// Writes a piece at a place.
#[tactic(auto, using(std::proofs::lemmas::Slice::overwrites))]
fn overwrite(out: &mut [u8], at: usize, piece: &[u8])
    requires { at + length piece.now ≤ length out.old }
    ensures { take (at + length piece.now) out.new ≡ take at out.old ++ piece.now }
{
    out[at..at + piece.len()].copy_from_slice(piece);
}

impl ShortText {
    /// The empty text.
    pub fn new() -> ShortText
        ensures { result ≡ [] }
    {
        ShortText {
            bytes: [0; 256],
            used: 0,
        }
    }

    /// The bytes of the text.
    pub fn as_slice(&self) -> &[u8]
        ensures { result.now ≡ self.now }
    {
        &self.bytes[..self.used]
    }

    /// Appends a piece.
    pub fn push(&mut self, piece: &[u8])
        requires { length self.old + length piece.now ≤ 256 }
        ensures text { self.new ≡ self.old ++ piece.now }
        ensures size { length self.new ≡ length self.old + length piece.now }
    {
        overwrite(&mut self.bytes, self.used, piece);
        self.used += piece.len();
    }

    // Appends the digits of a number.
    #[tactic(auto, using(crate::proofs::Decimals::decimals))]
    fn push_digits(&mut self, number: u64)
        requires { length self.old + length (decimal number) ≤ 256 }
        ensures text { self.new ≡ self.old ++ decimal number }
        ensures size { length self.new ≡ length self.old + length (decimal number) }
    {
        if number < 10 {
            self.push(&[b'0' + number as u8]);
            return;
        }
        self.push_digits(number / 10);
        self.push(&[b'0' + (number % 10) as u8]);
    }

    /// Appends a number in decimal digits, of which there are at most 20.
    #[tactic(auto, using(crate::proofs::Decimals::bounds))]
    pub fn push_decimal(&mut self, number: u64)
        requires { length self.old + 20 ≤ 256 }
        ensures text { self.new ≡ self.old ++ decimal number }
        ensures size { length self.new ≤ length self.old + 20 }
    {
        self.push_digits(number);
    }
}
