//! Whether a rule is broken at a place.
ghost use Rattle.std.specs.Prelude.{◌≡◌, ◌==◌, ◌&&◌, length, nat_lt, not, take, true};
ghost use Rattle.cp_statements.specs.Entry.{entry_of};
ghost use Rattle.cp_statements.specs.View.{entry_view};
ghost use Rattle.cp_chain.specs.Legal.{is_call, latest, ok_and, put_at, same_put};
ghost use Rattle.cp_chain.specs.Pass.{entry_breaks};
ghost use Rattle.cp_chain.specs.Rules.{broken, entry_at_fault, text_at};
ghost use Rattle.cp_chain.specs.View.{frame_view, put_view, rule_view};

use crate::call::is_call;
use crate::put::Put;
use crate::{Fault, Frame, Rule, Segment};
use cp_statements::{Entry, Kind};

/// Whether the segment breaks the rule of the fault at its place and its other place, in range or not.
/// The other place is 0 at each rule but `Repeat`; there it is any lesser place of an entry with the
/// client and nonce.
#[tactic(auto, unfolding(crate::specs::Rules::broken))]
pub fn breaks(frame: &Frame, segment: &Segment, fault: Fault) -> bool
    ensures { result ≡ broken (frame_view frame.now) segment.now (rule_view fault.rule) fault.place fault.other }
{
    let Fault { rule, place, other } = fault;
    match rule {
        Rule::Text => other == 0 && has_no_entry(segment, place),
        Rule::Repeat => repeats(segment, place, other),
        Rule::LastTip => other == 0 && leads_elsewhere(frame, segment, place),
        _ => other == 0 && breaks_alone(frame, segment, rule, place),
    }
}

/// Whether there is a text that is no entry.
fn has_no_entry(segment: &Segment, place: u64) -> bool
    ensures { result ≡ (nat_lt place (length segment.now) && not (ok_and (entry_of (text_at segment.now place)) (λ e. true))) }
{
    match segment.get(place) {
        Some(text) => Entry::read(text).is_err(),
        None => false,
    }
}

/// Whether there is an entry with the client and nonce of the one at `other`, a lesser place.
fn repeats(segment: &Segment, place: u64, other: u64) -> bool
    ensures { result ≡ entry_at_fault segment.now place (λ e. nat_lt other place && is_call e.client e.nonce (text_at segment.now other)) }
{
    let Some(entry) = segment.entry(place) else {
        return false;
    };
    if other >= place {
        return false;
    }
    match segment.get(other) {
        Some(text) => is_call(entry.client, entry.nonce, text),
        None => false,
    }
}

/// Whether the segment ends there, and its latest put isn't that of the tip after it.
fn leads_elsewhere(frame: &Frame, segment: &Segment, place: u64) -> bool
    ensures { result ≡ ((place == length segment.now) && not (same_put (latest (put_at (frame_view frame.now).side.before) segment.now) (put_at (frame_view frame.now).after))) }
{
    place == u64::from(segment.count())
        && !Put::latest(&frame.before, segment, place).is(&Put::at(&frame.after))
}

/// Whether there is an entry that breaks the rule by itself.
fn breaks_alone(frame: &Frame, segment: &Segment, rule: Rule, place: u64) -> bool
    ensures { result ≡ entry_at_fault segment.now place (λ e. entry_breaks (frame_view frame.now).side (latest (put_at (frame_view frame.now).side.before) (take place segment.now)) place e (rule_view rule)) }
{
    let Some(entry) = segment.entry(place) else {
        return false;
    };
    let put = Put::latest(&frame.before, segment, place);
    entry_breaks(frame, &put, place, &entry, rule)
}

/// Whether the entry breaks the rule by itself at `place`, where `put` is the latest put before it.
pub(crate) fn entry_breaks(frame: &Frame, put: &Put, place: u64, entry: &Entry, rule: Rule) -> bool
    ensures { result ≡ entry_breaks (frame_view frame.now).side (put_view put.now) place (entry_view entry.now) (rule_view rule) }
{
    match rule {
        Rule::Block => entry.block != frame.block,
        Rule::Epoch => entry.epoch != frame.epoch,
        Rule::Position => entry.position.checked_sub(place) != Some(frame.before.count),
        Rule::Latest => entry.kind == Kind::Get && !Put::by(entry).is(put),
        Rule::Version => {
            entry.kind == Kind::Put && entry.version.checked_sub(1) != Some(put.version)
        }
        Rule::Writer => {
            entry.kind == Kind::Put && !frame.families.is_writer(&frame.store, entry)
        }
        Rule::Text | Rule::Repeat | Rule::LastTip => false,
    }
}
