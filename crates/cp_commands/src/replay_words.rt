//! The words of `replay`.
ghost use Rattle.std.specs.Prelude.{◌≡◌, map, string_bytes};
ghost use Rattle.std.specs.Option.{option_map};
ghost use Rattle.cp_commands.specs.Commands.{by_named, by_given, pages_given, replay_of};
ghost use Rattle.cp_commands.specs.View.{command_view};

use crate::by::By;
use crate::client_words::{height_wanted, width_wanted};
use crate::command::{Command, is_word};
use cp_words::{Pairs, number};
use lms_ots::OtsType;
use lms_tree::Height;

/// The words of `replay`.
#[derive(Clone, Copy, Debug, PartialEq, Eq)]
pub struct ReplayWords<'a> {
    /// The file of the store's seed, 48 bytes.
    pub seed: &'a str,
    /// The height of the store's tree: 5, 10 or 15.
    pub height: Height,
    /// The type of the store's one-time signatures, by its width: 1, 2, 4 or 8.
    pub ots: OtsType,
    /// How many pages of 1,024 bytes each shard has: 0 to 65,536.
    pub pages: u32,
    /// The file of the script, at most 1 MiB.
    pub script: &'a str,
    /// What serves the store. The answers are the same.
    pub by: By,
}

// The pages that are given, or 64.
#[tactic(auto, using(crate::proofs::NumberLemmas::numbers_given))]
fn pages_given(text: Option<&str>) -> Option<u32>
    ensures { result ≡ pages_given (option_map (λ t. t.now) text.entry) }
{
    let Some(text) = text else {
        return Some(64);
    };
    match number(text, 0, 65_536) {
        Some(pages) => Some(pages as u32),
        None => None,
    }
}

// What serves the store, by its name.
fn by_named(text: &str) -> Option<By>
    ensures { result ≡ by_named text.now }
{
    if is_word(text, "core") {
        Some(By::Core)
    } else if is_word(text, "shards") {
        Some(By::Shards)
    } else {
        None
    }
}

// What is given to serve the store, or shards.
fn by_given(text: Option<&str>) -> Option<By>
    ensures { result ≡ by_given (option_map (λ t. t.now) text.entry) }
{
    match text {
        Some(text) => by_named(text),
        None => Some(By::Shards),
    }
}

// The options of `replay`.
#[tactic(auto, unfolding(crate::specs::Commands::replay_of))]
pub(crate) fn replay_words<'a>(options: &'a [String]) -> Option<Command<'a>>
    ensures { option_map command_view result ≡ replay_of (map string_bytes options.now) }
{
    let Some(pairs) = Pairs::read(options, "--seed --height --width --pages --script --by") else {
        return None;
    };
    let Some(seed) = pairs.get("--seed") else {
        return None;
    };
    let Some(height) = height_wanted(pairs.get("--height")) else {
        return None;
    };
    let Some(ots) = width_wanted(pairs.get("--width")) else {
        return None;
    };
    let Some(pages) = pages_given(pairs.get("--pages")) else {
        return None;
    };
    let Some(script) = pairs.get("--script") else {
        return None;
    };
    let Some(by) = by_given(pairs.get("--by")) else {
        return None;
    };
    Some(Command::Replay(ReplayWords {
        seed,
        height,
        ots,
        pages,
        script,
        by,
    }))
}
