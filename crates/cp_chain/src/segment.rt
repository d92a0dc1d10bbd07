//! Segments: the texts that a block's chain gained in an epoch.
ghost use Rattle.std.specs.Prelude.{◌≡◌, ◌<◌, ◌≤◌, length, IsErr, MatchOption};
ghost use Rattle.cp_bytes.specs.Reading.{ReadsOn, Reads as ReadsPart};
ghost use Rattle.cp_statements.specs.Entry.{entry_of};
ghost use Rattle.cp_statements.specs.View.{entry_view};
ghost use Rattle.cp_chain.specs.Rules.{text_at};
ghost use Rattle.cp_chain.specs.Segment.{parts_at, parts_in, segment_at, segment_of};

use cp_bytes::{Cut, Short};
use cp_statements::{Entry, Malformed};
use std::marker::Model;

/// The texts that a block's chain gained in an epoch, which borrow the bytes that they were read
/// from. Contracts see their list.
#[derive(Drop)]
pub struct Segment<'a> {
    count: u32,
    parts: &'a [u8],
}

impl<'a> Model for Segment<'a> {
    ghost use Rattle.std.specs.Prelude.{ℕ, ◌<◌, ◌^◌, List, IsOk};
    ghost use Rattle.cp_chain.specs.Segment.{parts_at, parts_in};

    ghost Value = { List (List ℕ) };

    ghost view = { λ s. parts_in s.count s.parts.now };

    ghost invariant = { λ s. IsOk (parts_at s.count s.parts.now) };
}

impl<'a> Segment<'a> {
    ghost use Rattle.cp_statements.specs.Reading.{Reads};

    /// The segment at the front of what is left: a number of four bytes, big endian, and so many
    /// texts, each with a length of four bytes, big endian, before it. A refusal leaves the cursor as
    /// it was.
    #[tactic(auto, unfolding(crate::specs::Segment::segment_at))]
    pub fn take(cut: &mut Cut<'a>) -> Result<Segment<'a>, Short>
        ensures { ReadsPart (λ x. x) cut.old cut.new result (segment_at cut.old.rest) }
    {
        let mut ahead = cut.copy();
        let count = ahead.be_u32()?;
        let parts = ahead.rest();
        pass_parts(&mut ahead, count)?;
        *cut = ahead;
        Ok(Segment { count, parts })
    }

    /// The segment that all of the bytes spell.
    #[tactic(auto, unfolding(crate::specs::Segment::segment_of))]
    pub fn read(bytes: &'a [u8]) -> Result<Segment<'a>, Malformed>
        ensures { Reads (λ x. x) result (segment_of bytes.now) }
    {
        let mut cut = Cut::new(bytes);
        let segment = Segment::take(&mut cut)?;
        cut.end()?;
        Ok(segment)
    }

    /// The number of its texts.
    pub fn count(&self) -> u32
        ensures { result ≡ length self.now }
    {
        self.count
    }

    /// Its texts, in order.
    pub fn texts(&self) -> Texts<'a>
        ensures { result ≡ self.now }
    {
        Texts {
            left: self.count,
            rest: self.parts,
        }
    }

    /// The text at `i`, counted from 0. It is found by going over those before it.
    pub fn text(&self, i: u32) -> &'a [u8]
        requires { i < length self.now }
        ensures { result.now ≡ text_at self.now i }
    {
        let mut texts = self.texts();
        for _ in 0..i {
            texts.next();
        }
        texts.next().unwrap_or(&[])
    }

    /// The text at a place, counted from 0; none exactly where there are no more than so many texts.
    pub(crate) fn get(&self, place: u64) -> Option<&'a [u8]>
        ensures { MatchOption result (length self.now ≤ place) (λ text. (place < length self.now) × (text.now ≡ text_at self.now place)) }
    {
        if place >= u64::from(self.count()) {
            return None;
        }
        Some(self.text(place as u32))
    }

    /// The entry at a place; none exactly where there is no text, or one that is no entry.
    pub(crate) fn entry(&self, place: u64) -> Option<Entry<'a>>
        ensures { MatchOption result (IsErr (entry_of (text_at self.now place))) (λ entry. entry_of (text_at self.now place) ≡ Ok (entry_view entry)) }
    {
        match self.get(place) {
            Some(text) => Entry::read(text).ok(),
            None => None,
        }
    }
}

/// The texts of a segment that are still to come.
#[derive(Drop)]
pub struct Texts<'a> {
    left: u32,
    rest: &'a [u8],
}

impl<'a> Model for Texts<'a> {
    ghost use Rattle.std.specs.Prelude.{ℕ, List, IsOk};
    ghost use Rattle.cp_chain.specs.Segment.{parts_at, parts_in};

    ghost Value = { List (List ℕ) };

    ghost view = { λ t. parts_in t.left t.rest.now };

    ghost invariant = { λ t. IsOk (parts_at t.left t.rest.now) };
}

impl<'a> Iterator for Texts<'a> {
    type Item = &'a [u8];

    ghost use Rattle.std.specs.Iterator.{YieldsFirstRef, item_count};

    ghost next_gives = { YieldsFirstRef (λ texts. texts) };

    ghost remaining = { item_count (λ texts. texts) };

    fn next(&mut self) -> Option<&'a [u8]> {
        if self.left == 0 {
            return None;
        }
        let mut cut = Cut::new(self.rest);
        match cut.part() {
            Ok(text) => {
                self.left -= 1;
                self.rest = cut.rest();
                Some(text)
            }
            // There are as many parts as the number says.
            Err(_) => None,
        }
    }
}

/// Passes over so many parts.
fn pass_parts(cut: &mut Cut, n: u32) -> Result<(), Short>
    ensures { ReadsOn (λ _. parts_in n cut.old.rest) cut.old cut.new result (parts_at n cut.old.rest) }
{
    'parts: for _ in 0..n {
        cut.part()?;
    }
    Ok(())
}
