//! The words of the commands on an operator's lives and on forgeries.
ghost use Rattle.std.specs.Prelude.{◌≡◌, ◌<◌, ◌≤◌, ◌^◌, IfSome, map, string_bytes};
ghost use Rattle.std.specs.Option.{option_map};
ghost use Rattle.lms_tree.specs.Parameters.{levels_of};
ghost use Rattle.cp_commands.specs.Commands.{certify_of, forgery_of, judge_life_of, last_life, top_given, top_named};
ghost use Rattle.cp_commands.specs.Numbers.{number_given};
ghost use Rattle.cp_commands.specs.View.{command_view};

use crate::certify_words::CertifyWords;
use crate::client_words::{height_wanted, width_wanted};
use crate::command::{Command, height_given, is_word, width_given};
use cp_words::{Pairs, number};
use lms_ots::OtsType;
use lms_tree::Height;

/// The words of `forgery`.
#[derive(Clone, Copy, Debug, PartialEq, Eq)]
pub struct ForgeryWords<'a> {
    /// The file of the key's seed, 48 bytes.
    pub seed: &'a str,
    /// The height of the key's tree: 5, 10 or 15.
    pub height: Height,
    /// The type of the key's one-time signatures, by its width: 1, 2, 4 or 8.
    pub ots: OtsType,
    /// The file of the envelopes that the key signed.
    pub signed: &'a str,
    /// The file of the text.
    pub text: &'a str,
    /// The file of the signature on it.
    pub signature: &'a str,
}

// The height of a top tree of this name.
fn top_named(text: &str) -> Option<Height>
    ensures value { result ≡ top_named text.now }
    ensures few { IfSome result (λ top. levels_of top ≤ 10) }
{
    if is_word(text, "5") {
        Some(Height::H5)
    } else if is_word(text, "10") {
        Some(Height::H10)
    } else {
        None
    }
}

// The height of the top tree that is given, or 5.
fn top_given(text: Option<&str>) -> Option<Height>
    ensures value { result ≡ top_given (option_map (λ t. t.now) text.entry) }
    ensures few { IfSome result (λ top. levels_of top ≤ 10) }
{
    match text {
        Some(text) => top_named(text),
        None => Some(Height::H5),
    }
}

// The number of the last life under a top tree of this height.
fn last_life(top: Height) -> u64
    ensures value { result ≡ last_life top }
    ensures below { result < 2 ^ levels_of top }
    ensures bound { result < 2 ^ 32 }
{
    match top {
        Height::H5 => 31,
        Height::H10 => 1023,
        Height::H15 => 32767,
    }
}

// The life that is given, one of the top tree's leaves.
#[tactic(auto, using(crate::proofs::NumberLemmas::numbers_given))]
fn life_given(text: Option<&str>, top: Height) -> Option<u32>
    ensures value { result ≡ number_given 0 (last_life top) (option_map (λ t. t.now) text.entry) }
    ensures within { IfSome result (λ life. life < 2 ^ levels_of top) }
{
    let Some(text) = text else {
        return None;
    };
    match number(text, 0, last_life(top)) {
        Some(life) => Some(life as u32),
        None => None,
    }
}

// The options of `certify`.
#[tactic(auto, unfolding(crate::specs::Commands::certify_of))]
pub(crate) fn certify_words<'a>(options: &'a [String]) -> Option<Command<'a>>
    ensures { option_map command_view result ≡ certify_of (map string_bytes options.now) }
{
    let Some(pairs) = Pairs::read(
        options,
        "--seed --top --height --width --life --key --certificate --out",
    ) else {
        return None;
    };
    let Some(seed) = pairs.get("--seed") else {
        return None;
    };
    let Some(top) = top_given(pairs.get("--top")) else {
        return None;
    };
    let Some(height) = height_given(pairs.get("--height")) else {
        return None;
    };
    let Some(ots) = width_given(pairs.get("--width")) else {
        return None;
    };
    let Some(life) = life_given(pairs.get("--life"), top) else {
        return None;
    };
    let Some(key) = pairs.get("--key") else {
        return None;
    };
    let Some(certificate) = pairs.get("--certificate") else {
        return None;
    };
    let Some(out) = pairs.get("--out") else {
        return None;
    };
    Some(Command::Certify(CertifyWords {
        seed,
        top,
        height,
        ots,
        life,
        key,
        certificate,
        out,
    }))
}

// The options of `judge-life`.
#[tactic(auto, unfolding(crate::specs::Commands::judge_life_of))]
pub(crate) fn judge_life_words<'a>(options: &'a [String]) -> Option<Command<'a>>
    ensures { option_map command_view result ≡ judge_life_of (map string_bytes options.now) }
{
    let Some(pairs) = Pairs::read(options, "--key --certificate --evidence") else {
        return None;
    };
    let Some(key) = pairs.get("--key") else {
        return None;
    };
    let Some(certificate) = pairs.get("--certificate") else {
        return None;
    };
    let Some(evidence) = pairs.get("--evidence") else {
        return None;
    };
    Some(Command::JudgeLife {
        key,
        certificate,
        evidence,
    })
}

// The options of `forgery`.
#[tactic(auto, unfolding(crate::specs::Commands::forgery_of))]
pub(crate) fn forgery_words<'a>(options: &'a [String]) -> Option<Command<'a>>
    ensures { option_map command_view result ≡ forgery_of (map string_bytes options.now) }
{
    let Some(pairs) = Pairs::read(
        options,
        "--seed --height --width --signed --text --signature",
    ) else {
        return None;
    };
    let Some(seed) = pairs.get("--seed") else {
        return None;
    };
    let Some(height) = height_wanted(pairs.get("--height")) else {
        return None;
    };
    let Some(ots) = width_wanted(pairs.get("--width")) else {
        return None;
    };
    let Some(signed) = pairs.get("--signed") else {
        return None;
    };
    let Some(text) = pairs.get("--text") else {
        return None;
    };
    let Some(signature) = pairs.get("--signature") else {
        return None;
    };
    Some(Command::Forgery(ForgeryWords {
        seed,
        height,
        ots,
        signed,
        text,
        signature,
    }))
}
