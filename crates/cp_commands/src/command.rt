//! Commands, as the words of a command line spell them.
ghost use Rattle.std.specs.Prelude.{◌≡◌, map, string_bytes};
ghost use Rattle.std.specs.Option.{option_map};
ghost use Rattle.cp_commands.specs.View.{command_view};
ghost use Rattle.cp_commands.specs.Commands.{command_of, judge_of, verify_of, keygen_of, height_named, width_named, height_given, width_given, is_word};

use crate::audit_words::{AuditWords, audit_words};
use crate::certify_words::CertifyWords;
use crate::client_words::{
    AcceptWords, GetWords, PutWords, accept_words, ask_get_words, ask_put_words,
};
use crate::more_words::{ForgeryWords, certify_words, forgery_words, judge_life_words};
use crate::replay_words::{ReplayWords, replay_words};
use cp_words::Pairs;
use lms_ots::OtsType;
use lms_tree::Height;

/// A command with its options. Files are named by their paths in the folder.
#[derive(Clone, Copy, Debug, PartialEq, Eq)]
pub enum Command<'a> {
    /// `judge`: whether the evidence convicts the store of the key.
    Judge {
        key: &'a str,
        evidence: &'a str,
    },
    /// `verify`: whether the signature of the text verifies under the key.
    Verify {
        key: &'a str,
        text: &'a str,
        signature: &'a str,
    },
    /// `keygen`: writes the public key of a seed file.
    Keygen {
        seed: &'a str,
        height: Height,
        ots: OtsType,
        out: &'a str,
    },
    /// `ask-put`: writes a put body, signed by the next leaf of the vault.
    AskPut(PutWords<'a>),
    /// `ask-get`: writes a get request.
    AskGet(GetWords<'a>),
    /// `accept`: judges what the store answered, and keeps its envelope and content.
    Accept(AcceptWords<'a>),
    /// `audit`: whether an epoch is clean; writes evidence where the store is guilty.
    Audit(AuditWords<'a>),
    /// `replay`: runs a script through a new store, and writes the files that it leaves.
    Replay(ReplayWords<'a>),
    /// `certify`: writes an operator's key, the certificate of a life and the life's seed.
    Certify(CertifyWords<'a>),
    /// `judge-life`: whether the evidence convicts the life of the certificate, under the
    /// operator's key.
    JudgeLife {
        key: &'a str,
        certificate: &'a str,
        evidence: &'a str,
    },
    /// `forgery`: what must have failed where a signature verifies that the key didn't make.
    Forgery(ForgeryWords<'a>),
}

pub(crate) fn is_word(word: &str, name: &str) -> bool
    ensures { result ≡ is_word word.now name.now }
{
    word == name
}

// The options of `judge`.
#[tactic(auto, unfolding(crate::specs::Commands::judge_of))]
fn judge<'a>(options: &'a [String]) -> Option<Command<'a>>
    ensures { option_map command_view result ≡ judge_of (map string_bytes options.now) }
{
    let Some(pairs) = Pairs::read(options, "--key --evidence") else {
        return None;
    };
    let Some(key) = pairs.get("--key") else {
        return None;
    };
    let Some(evidence) = pairs.get("--evidence") else {
        return None;
    };
    Some(Command::Judge { key, evidence })
}

// The options of `verify`.
#[tactic(auto, unfolding(crate::specs::Commands::verify_of))]
fn verify<'a>(options: &'a [String]) -> Option<Command<'a>>
    ensures { option_map command_view result ≡ verify_of (map string_bytes options.now) }
{
    let Some(pairs) = Pairs::read(options, "--key --text --signature") else {
        return None;
    };
    let Some(key) = pairs.get("--key") else {
        return None;
    };
    let Some(text) = pairs.get("--text") else {
        return None;
    };
    let Some(signature) = pairs.get("--signature") else {
        return None;
    };
    Some(Command::Verify {
        key,
        text,
        signature,
    })
}

// The height of this name.
pub(crate) fn height_named(text: &str) -> Option<Height>
    ensures { result ≡ height_named text.now }
{
    if is_word(text, "5") {
        Some(Height::H5)
    } else if is_word(text, "10") {
        Some(Height::H10)
    } else if is_word(text, "15") {
        Some(Height::H15)
    } else {
        None
    }
}

// The width of this name.
pub(crate) fn width_named(text: &str) -> Option<OtsType>
    ensures { result ≡ width_named text.now }
{
    if is_word(text, "1") {
        Some(OtsType::W1)
    } else if is_word(text, "2") {
        Some(OtsType::W2)
    } else if is_word(text, "4") {
        Some(OtsType::W4)
    } else if is_word(text, "8") {
        Some(OtsType::W8)
    } else {
        None
    }
}

// The height that is given, or 10.
pub(crate) fn height_given(text: Option<&str>) -> Option<Height>
    ensures { result ≡ height_given (option_map (λ t. t.now) text.entry) }
{
    match text {
        Some(text) => height_named(text),
        None => Some(Height::H10),
    }
}

// The width that is given, or 4.
pub(crate) fn width_given(text: Option<&str>) -> Option<OtsType>
    ensures { result ≡ width_given (option_map (λ t. t.now) text.entry) }
{
    match text {
        Some(text) => width_named(text),
        None => Some(OtsType::W4),
    }
}

// The options of `keygen`.
#[tactic(auto, unfolding(crate::specs::Commands::keygen_of))]
fn keygen<'a>(options: &'a [String]) -> Option<Command<'a>>
    ensures { option_map command_view result ≡ keygen_of (map string_bytes options.now) }
{
    let Some(pairs) = Pairs::read(options, "--seed --height --width --out") else {
        return None;
    };
    let Some(seed) = pairs.get("--seed") else {
        return None;
    };
    let Some(height) = height_given(pairs.get("--height")) else {
        return None;
    };
    let Some(ots) = width_given(pairs.get("--width")) else {
        return None;
    };
    let Some(out) = pairs.get("--out") else {
        return None;
    };
    Some(Command::Keygen {
        seed,
        height,
        ots,
        out,
    })
}

impl<'a> Command<'a> {
    /// The command that the words spell; none exactly where they aren't a command's. The first word
    /// names the command, the others are pairs `--name value` in any order, each name at most once,
    /// each option present unless it has a default. It takes no memory.
    #[tactic(auto, unfolding(crate::specs::Commands::command_of))]
    pub fn read(words: &'a [String]) -> Option<Command<'a>>
        ensures { option_map command_view result ≡ command_of (map string_bytes words.now) }
    {
        let [first, options @ ..] = words else {
            return None;
        };
        let name = first.as_str();
        if is_word(name, "judge") {
            judge(options)
        } else if is_word(name, "verify") {
            verify(options)
        } else if is_word(name, "keygen") {
            keygen(options)
        } else if is_word(name, "ask-put") {
            ask_put_words(options)
        } else if is_word(name, "ask-get") {
            ask_get_words(options)
        } else if is_word(name, "accept") {
            accept_words(options)
        } else if is_word(name, "audit") {
            audit_words(options)
        } else if is_word(name, "replay") {
            replay_words(options)
        } else if is_word(name, "certify") {
            certify_words(options)
        } else if is_word(name, "judge-life") {
            judge_life_words(options)
        } else if is_word(name, "forgery") {
            forgery_words(options)
        } else {
            None
        }
    }
}
