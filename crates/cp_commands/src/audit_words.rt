//! The words of `audit`.
ghost use Rattle.std.specs.Prelude.{◌≡◌, map, string_bytes};
ghost use Rattle.std.specs.Option.{option_map};
ghost use Rattle.cp_commands.specs.Commands.{audit_of};
ghost use Rattle.cp_commands.specs.Numbers.{number_given};
ghost use Rattle.cp_commands.specs.View.{command_view};

use crate::command::Command;
use cp_words::{Pairs, number};

/// The words of `audit`.
#[derive(Clone, Copy, Debug, PartialEq, Eq)]
pub struct AuditWords<'a> {
    /// The file of the store's key, 56 bytes.
    pub key: &'a str,
    /// The epoch that is audited, at least 1.
    pub epoch: u64,
    /// The file of the hand-ins.
    pub hand_ins: &'a str,
    /// The file that is written where the store is guilty: the evidence.
    pub out: &'a str,
}

// The epoch that is given, at least 1.
#[tactic(auto, using(crate::proofs::NumberLemmas::numbers_given))]
fn epoch_given(text: Option<&str>) -> Option<u64>
    ensures { result ≡ number_given 1 18446744073709551615 (option_map (λ t. t.now) text.entry) }
{
    match text {
        Some(text) => number(text, 1, u64::MAX),
        None => None,
    }
}

// The options of `audit`.
#[tactic(auto, unfolding(crate::specs::Commands::audit_of))]
pub(crate) fn audit_words<'a>(options: &'a [String]) -> Option<Command<'a>>
    ensures { option_map command_view result ≡ audit_of (map string_bytes options.now) }
{
    let Some(pairs) = Pairs::read(options, "--key --epoch --handins --out") else {
        return None;
    };
    let Some(key) = pairs.get("--key") else {
        return None;
    };
    let Some(epoch) = epoch_given(pairs.get("--epoch")) else {
        return None;
    };
    let Some(hand_ins) = pairs.get("--handins") else {
        return None;
    };
    let Some(out) = pairs.get("--out") else {
        return None;
    };
    Some(Command::Audit(AuditWords {
        key,
        epoch,
        hand_ins,
        out,
    }))
}
