//! The words of a line, one after another.
ghost use Rattle.std.specs.Prelude.{◌≡◌, ◌≤◌, ◌∷◌, [], Some, None, MatchOption, ◌==◌, IfSome, length, position};
ghost use Rattle.std.specs.List.{list_all};
ghost use Rattle.cp_replay.specs.Words.{content_at, is_content, is_printable, number_at, words_in};
ghost use Rattle.cp_words.specs.Numbers.{number_in};

use std::marker::Model;

// The words of a line that are left. Contracts see them as a list.
#[derive(Drop)]
pub(crate) struct Words<'a> {
    rest: Option<&'a [u8]>,
}

impl<'a> Model for Words<'a> {
    ghost use Rattle.std.specs.Prelude.{List, ℕ};
    ghost use Rattle.std.specs.Option.{option_map};
    ghost use Rattle.cp_replay.specs.View.{words_left};

    ghost Value = { List (List ℕ) };

    ghost view = { λ w. words_left (option_map (λ t. t.now) w.rest) };
}

impl<'a> Words<'a> {
    /// The words of a line, which are parted by one space each.
    pub fn of(line: &'a [u8]) -> Words<'a>
        ensures { result ≡ words_in line.now }
    {
        Words { rest: Some(line) }
    }

    /// The next word.
    #[tactic(auto, using(crate::proofs::Splits::splits))]
    pub fn next(&mut self) -> Option<&'a [u8]>
        ensures { MatchOption result ((self.old ≡ []) × (self.new ≡ []))
            (λ word. self.old ≡ word.now ∷ self.new) }
    {
        let text = self.rest?;
        match place_of(text, b' ') {
            Some(end) => {
                self.rest = Some(&text[end + 1..]);
                Some(&text[..end])
            }
            None => {
                self.rest = None;
                Some(text)
            }
        }
    }

    /// The next word's number, from `least` to `most`.
    pub fn number(&mut self, least: u64, most: u64) -> Option<u64>
        ensures read { MatchOption result (number_at least most self.old ≡ None)
            (λ n. number_at least most self.old ≡ Some (n, self.new)) }
        ensures within { IfSome result (λ n. (least ≤ n) × (n ≤ most)) }
    {
        let word = self.next()?;
        number(word, least, most)
    }

    /// The next word as a content.
    #[tactic(auto, using(crate::proofs::Numbers::contents), unfolding(crate::specs::Words::content_of))]
    pub fn content(&mut self) -> Option<&'a [u8]>
        ensures read { MatchOption result (content_at self.old ≡ None)
            (λ content. content_at self.old ≡ Some (content.now, self.new)) }
        ensures short { IfSome result (λ content. length content.now ≤ 65536) }
    {
        let word = self.next()?;
        if is_content(word) { Some(word) } else { None }
    }

    /// Whether no word is left.
    #[tactic(auto, using(crate::proofs::Splits::splits))]
    pub fn is_over(&self) -> bool
        ensures { result ≡ (length self.now == 0) }
    {
        match self.rest {
            None => true,
            Some(_) => false,
        }
    }
}

// Where the byte stands first.
pub(crate) fn place_of(text: &[u8], byte: u8) -> Option<usize>
    ensures { result ≡ position (λ b. b == byte) text.now }
{
    text.iter().position(|b| *b == byte)
}

// The number from `least` to `most` that the word spells.
#[tactic(auto, using(crate::proofs::Numbers::numbers), unfolding(cp_words::specs::Numbers::number_in))]
fn number(word: &[u8], least: u64, most: u64) -> Option<u64>
    ensures read { result ≡ number_in least most word.now }
    ensures within { IfSome result (λ n. (least ≤ n) × (n ≤ most)) }
{
    match str::from_utf8(word) {
        Ok(text) => cp_words::number(text, least, most),
        Err(_) => None,
    }
}

// Whether the word is a content: 1 to 65,536 printable characters.
fn is_content(word: &[u8]) -> bool
    ensures { result ≡ is_content word.now }
{
    1 <= word.len() && word.len() <= 65_536 && is_all_printable(word)
}

// Whether all bytes are printable ASCII and no space.
fn is_all_printable(word: &[u8]) -> bool
    ensures { result ≡ list_all is_printable word.now }
{
    word.iter().all(|byte| is_printable(*byte))
}

// Whether the byte is printable ASCII and no space.
fn is_printable(byte: u8) -> bool
    ensures { result ≡ is_printable byte }
{
    33 <= byte && byte <= 126
}
