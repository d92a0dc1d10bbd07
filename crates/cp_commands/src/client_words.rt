//! The words of the client's commands.
ghost use Rattle.std.specs.Prelude.{◌≡◌, ◌<◌, ◌^◌, ℕ, Some, None, map, string_bytes};
ghost use Rattle.std.specs.Option.{option_map};
ghost use Rattle.cp_commands.specs.Numbers.{number_given};
ghost use Rattle.cp_commands.specs.View.{call_words_view, command_view};
ghost use Rattle.cp_commands.specs.Commands.{call_in, height_wanted, width_wanted, ask_put_of, ask_get_of, accept_words_of};

use crate::command::{Command, height_named, width_named};
use cp_words::{Pairs, number};
use lms_ots::OtsType;
use lms_tree::Height;

/// The numbers of a call.
#[derive(Clone, Copy, Debug, PartialEq, Eq)]
pub struct CallWords {
    /// The epoch that the call is for, at least 1.
    pub epoch: u64,
    /// The block's number.
    pub block: u64,
    /// The client's number.
    pub client: u32,
    /// The client's own number for this call.
    pub nonce: u64,
}

/// The words of `ask-put`.
#[derive(Clone, Copy, Debug, PartialEq, Eq)]
pub struct PutWords<'a> {
    /// The file of the writer's seed, 48 bytes.
    pub seed: &'a str,
    /// The height of the writer's tree: 5, 10 or 15.
    pub height: Height,
    /// The type of the writer's one-time signatures, by its width: 1, 2, 4 or 8.
    pub ots: OtsType,
    /// The file of the store's key, 56 bytes.
    pub store: &'a str,
    /// The epoch, block, client and nonce of the put.
    pub call: CallWords,
    /// The version that the put makes.
    pub version: u64,
    /// The file of the content.
    pub content: &'a str,
    /// The file that is written: the put body.
    pub out: &'a str,
}

/// The words of `ask-get`.
#[derive(Clone, Copy, Debug, PartialEq, Eq)]
pub struct GetWords<'a> {
    /// The file of the store's key, 56 bytes.
    pub store: &'a str,
    /// The epoch, block, client and nonce of the get.
    pub call: CallWords,
    /// The file that is written: the get request.
    pub out: &'a str,
}

/// The words of `accept`.
#[derive(Clone, Copy, Debug, PartialEq, Eq)]
pub struct AcceptWords<'a> {
    /// The file of the store's key, 56 bytes.
    pub store: &'a str,
    /// The file of what was asked: a put body or a get request.
    pub request: &'a str,
    /// The file of what the store answered.
    pub reply: &'a str,
    /// The file that is written first: the reply's envelope.
    pub out: &'a str,
    /// The file that is written then: the content.
    pub content: &'a str,
}

// The number that is given, from `least` to `most`.
#[tactic(auto, using(crate::proofs::NumberLemmas::numbers_given))]
fn number_given(text: Option<&str>, least: u64, most: u64) -> Option<u64>
    ensures { result ≡ number_given least most (option_map (λ t. t.now) text.entry) }
{
    match text {
        Some(text) => number(text, least, most),
        None => None,
    }
}

// The client's number.
#[tactic(auto, using(crate::proofs::NumberLemmas::numbers_given))]
fn client_given(text: Option<&str>) -> Option<u32>
    ensures { result ≡ number_given 0 4294967295 (option_map (λ t. t.now) text.entry) }
{
    let Some(text) = text else {
        return None;
    };
    match number(text, 0, 4_294_967_295) {
        Some(client) => Some(client as u32),
        None => None,
    }
}

// The height, which must be given.
pub(crate) fn height_wanted(text: Option<&str>) -> Option<Height>
    ensures { result ≡ height_wanted (option_map (λ t. t.now) text.entry) }
{
    match text {
        Some(text) => height_named(text),
        None => None,
    }
}

// The width, which must be given.
pub(crate) fn width_wanted(text: Option<&str>) -> Option<OtsType>
    ensures { result ≡ width_wanted (option_map (λ t. t.now) text.entry) }
{
    match text {
        Some(text) => width_named(text),
        None => None,
    }
}

// The numbers of a call.
#[tactic(auto, unfolding(crate::specs::Commands::call_in))]
fn call_words(pairs: &Pairs<'_>) -> Option<CallWords>
    ensures { option_map call_words_view result ≡ call_in pairs.now }
{
    let Some(epoch) = number_given(pairs.get("--epoch"), 1, u64::MAX) else {
        return None;
    };
    let Some(block) = number_given(pairs.get("--block"), 0, u64::MAX) else {
        return None;
    };
    let Some(client) = client_given(pairs.get("--client")) else {
        return None;
    };
    let Some(nonce) = number_given(pairs.get("--nonce"), 0, u64::MAX) else {
        return None;
    };
    Some(CallWords {
        epoch,
        block,
        client,
        nonce,
    })
}

// The options of `ask-put`.
#[tactic(auto, unfolding(crate::specs::Commands::ask_put_of))]
pub(crate) fn ask_put_words<'a>(options: &'a [String]) -> Option<Command<'a>>
    ensures { option_map command_view result ≡ ask_put_of (map string_bytes options.now) }
{
    let Some(pairs) = Pairs::read(
        options,
        "--seed --height --width --store --epoch --block --client --nonce --version --content --out",
    ) else {
        return None;
    };
    let Some(seed) = pairs.get("--seed") else {
        return None;
    };
    let Some(height) = height_wanted(pairs.get("--height")) else {
        return None;
    };
    let Some(ots) = width_wanted(pairs.get("--width")) else {
        return None;
    };
    let Some(store) = pairs.get("--store") else {
        return None;
    };
    let Some(call) = call_words(&pairs) else {
        return None;
    };
    let Some(version) = number_given(pairs.get("--version"), 0, u64::MAX) else {
        return None;
    };
    let Some(content) = pairs.get("--content") else {
        return None;
    };
    let Some(out) = pairs.get("--out") else {
        return None;
    };
    Some(Command::AskPut(PutWords {
        seed,
        height,
        ots,
        store,
        call,
        version,
        content,
        out,
    }))
}

// The options of `ask-get`.
#[tactic(auto, unfolding(crate::specs::Commands::ask_get_of))]
pub(crate) fn ask_get_words<'a>(options: &'a [String]) -> Option<Command<'a>>
    ensures { option_map command_view result ≡ ask_get_of (map string_bytes options.now) }
{
    let Some(pairs) = Pairs::read(options, "--store --epoch --block --client --nonce --out") else {
        return None;
    };
    let Some(store) = pairs.get("--store") else {
        return None;
    };
    let Some(call) = call_words(&pairs) else {
        return None;
    };
    let Some(out) = pairs.get("--out") else {
        return None;
    };
    Some(Command::AskGet(GetWords { store, call, out }))
}

// The options of `accept`.
#[tactic(auto, unfolding(crate::specs::Commands::accept_words_of))]
pub(crate) fn accept_words<'a>(options: &'a [String]) -> Option<Command<'a>>
    ensures { option_map command_view result ≡ accept_words_of (map string_bytes options.now) }
{
    let Some(pairs) = Pairs::read(options, "--store --request --reply --out --content") else {
        return None;
    };
    let Some(store) = pairs.get("--store") else {
        return None;
    };
    let Some(request) = pairs.get("--request") else {
        return None;
    };
    let Some(reply) = pairs.get("--reply") else {
        return None;
    };
    let Some(out) = pairs.get("--out") else {
        return None;
    };
    let Some(content) = pairs.get("--content") else {
        return None;
    };
    Some(Command::Accept(AcceptWords {
        store,
        request,
        reply,
        out,
        content,
    }))
}
