//! Pairs of a name and a value.
ghost use Rattle.std.specs.Prelude.{◌≡◌, ◌↔◌, ◌==◌, IsTrue, map, string_bytes, MatchOption, Bool, false, bytes_eq};
ghost use Rattle.std.specs.List.{slice_split, list_any};
ghost use Rattle.std.specs.Option.{option_map};
ghost use Rattle.cp_words.specs.Pairs.{names_in, is_among, is_value, are_pairs, pairs_of, value_in};

use std::marker::Model;

// Whether the name is one of the names in the text.
#[tactic(auto, using(crate::proofs::Names::among), unfolding(crate::specs::Pairs::is_among))]
fn is_among(names: &str, name: &str) -> bool
    ensures { result ≡ is_among (names_in names.now) name.now }
{
    let mut rest = names;
    while let Some((one, others)) = rest.split_once(' ') {
        if one == name {
            return true;
        }
        rest = others;
    }
    rest == name
}

// Whether the word may be a value.
fn is_value(word: &str) -> bool
    ensures { result ≡ is_value word.now }
{
    match word.as_bytes() {
        [] => false,
        [first, ..] => *first != b'-',
    }
}

// Whether the word is this name.
fn is_name(word: &str, name: &str) -> bool
    ensures { result ≡ bytes_eq word.now name.now }
{
    word == name
}

// The value that follows the name.
#[tactic(auto, unfolding(crate::specs::Pairs::value_in))]
fn value_in<'a>(words: &'a [String], name: &str) -> Option<&'a str>
    ensures { option_map (λ v. v.now) result ≡ value_in (map string_bytes words.now) name.now }
{
    let mut rest = words;
    while let [first, value, others @ ..] = rest {
        if is_name(first.as_str(), name) {
            return Some(value.as_str());
        }
        rest = others;
    }
    None
}

/// Words that are pairs of a name and a value, each name at most once. Contracts see the words.
#[derive(Drop)]
pub struct Pairs<'a> {
    words: &'a [String],
}

impl<'a> Model for Pairs<'a> {
    ghost use Rattle.std.specs.Prelude.{List, ℕ, map, string_bytes};

    ghost Value = { List (List ℕ) };

    ghost view = { λ p. map string_bytes p.words.now };
}

impl<'a> Pairs<'a> {
    /// The words, where they are pairs of one of the names and a value, in any order, each name
    /// at most once; none exactly where they aren't. The names stand in one text, parted by
    /// single spaces. A value isn't empty and doesn't begin with `-`. It takes no memory.
    #[tactic(auto, unfolding(crate::specs::Pairs::are_pairs))]
    pub fn read(words: &'a [String], names: &str) -> Option<Pairs<'a>>
        ensures { result ≡ pairs_of (names_in names.now) (map string_bytes words.now) }
    {
        let mut rest = words;
        while let [name, value, others @ ..] = rest {
            if !is_among(names, name.as_str())
                || !is_value(value.as_str())
                || value_in(others, name.as_str()).is_some()
            {
                return None;
            }
            rest = others;
        }
        if rest.is_empty() {
            Some(Pairs { words })
        } else {
            None
        }
    }

    /// The value of the name; none exactly where the name isn't given. It takes no memory.
    pub fn get(&self, name: &str) -> Option<&'a str>
        ensures { option_map (λ v. v.now) result ≡ value_in self.now name.now }
    {
        value_in(self.words, name)
    }
}
