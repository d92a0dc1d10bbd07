//! The first fault of a segment.
ghost use Rattle.std.specs.Prelude.{◌≡◌, ◌↔◌, ◌+◌, ◌<◌, length, take, find, option_map, IfSome, IsNone, MatchResult, Some, None};
ghost use Rattle.cp_statements.specs.Entry.{entry_of};
ghost use Rattle.cp_statements.specs.View.{entry_view};
ghost use Rattle.cp_chain.specs.Legal.{Legal, latest, put_at};
ghost use Rattle.cp_chain.specs.Pass.{NoncesWithin, entry_breaks, fault_alone, fault_at, fault_behind};
ghost use Rattle.cp_chain.specs.Rules.{IsFirstFault, first_fault, text_at};
ghost use Rattle.cp_chain.specs.View.{fault_view, frame_view, put_view, rule_view};

use crate::broken::entry_breaks;
use crate::call::repeated;
use crate::put::Put;
use crate::{Fault, Frame, Rule, Segment};
use cp_statements::Entry;

/// The rules that an entry breaks by itself, in order.
const RULES_OF_ONE: [Rule; 6] = [
    Rule::Block,
    Rule::Epoch,
    Rule::Position,
    Rule::Latest,
    Rule::Version,
    Rule::Writer,
];

/// The first fault of the segment: at the least place, there of the least rule, there with the least
/// other place. There is none exactly where the segment is legal.
///
/// It takes no memory, so a repeated call is looked for among the texts before each entry, but for an
/// entry whose nonce is above all before it. A look tells nearly every text apart by twelve bytes. A
/// segment of n texts costs at most n signatures and n^2/2 looks: none where nonces rise over all
/// clients together, and nearly as many where several clients each count theirs from 1.
/// `first_fault_by_index` serves where memory may be taken.
pub fn first_fault(frame: &Frame, segment: &Segment) -> Option<Fault>
    ensures fault { option_map fault_view result ≡ first_fault (frame_view frame.now) segment.now }
    ensures none { IsNone result ↔ Legal (frame_view frame.now) segment.now }
    ensures least { IfSome result (λ fault. IsFirstFault (frame_view frame.now) segment.now (fault_view fault)) }
{
    find_fault(frame, segment)
}

/// What the texts that were passed over leave: the latest put, and a nonce that none of them is above.
#[derive(Clone, Copy)]
struct Passed {
    put: Put,
    nonce: u64,
}

/// The first fault, text after text.
fn find_fault(frame: &Frame, segment: &Segment) -> Option<Fault>
    ensures { option_map fault_view result ≡ first_fault (frame_view frame.now) segment.now }
{
    let end = u64::from(segment.count());
    let mut passed = Passed {
        put: Put::at(&frame.before),
        nonce: 0,
    };
    let mut place = 0;
    for text in segment.texts() {
        match pass(frame, segment, &passed, place, text) {
            Ok(next) => passed = next,
            Err(fault) => return Some(fault),
        }
        place += 1;
    }
    end_fault(frame, &passed.put, end)
}

/// Passes over the text at `place`, where `passed` is what those before it leave: what is left behind
/// it, or the first fault there.
fn pass(
    frame: &Frame,
    segment: &Segment,
    passed: &Passed,
    place: u64,
    text: &[u8],
) -> Result<Passed, Fault>
    requires within { place < length segment.now }
    requires here { text.now ≡ text_at segment.now place }
    requires put { put_view passed.now.put ≡ latest (put_at (frame_view frame.now).side.before) (take place segment.now) }
    requires nonces { NoncesWithin passed.now.nonce (take place segment.now) }
    ensures { MatchResult result
        (λ next. (fault_at (frame_view frame.now) segment.now place ≡ None) × (put_view next.put ≡ latest (put_at (frame_view frame.now).side.before) (take (place + 1) segment.now)) × NoncesWithin next.nonce (take (place + 1) segment.now))
        (λ fault. fault_at (frame_view frame.now) segment.now place ≡ Some (fault_view fault)) }
{
    let entry = sound_entry(frame, &passed.put, place, text)?;
    match repeated(segment, place, passed.nonce, entry.client, entry.nonce) {
        Some(other) => Err(Fault {
            rule: Rule::Repeat,
            place,
            other: other as u64,
        }),
        None => Ok(Passed {
            put: passed.put.behind_entry(&entry),
            nonce: passed.nonce.max(entry.nonce),
        }),
    }
}

/// The entry of the text at `place`, which breaks no rule by itself, where `put` is the latest put
/// before it; else its first fault by itself.
pub(crate) fn sound_entry<'a>(
    frame: &Frame,
    put: &Put,
    place: u64,
    text: &'a [u8],
) -> Result<Entry<'a>, Fault>
    ensures { MatchResult result
        (λ entry. (entry_of text.now ≡ Ok (entry_view entry)) × (fault_alone (frame_view frame.now).side (put_view put.now) place text.now ≡ None))
        (λ fault. fault_alone (frame_view frame.now).side (put_view put.now) place text.now ≡ Some (fault_view fault)) }
{
    let Ok(entry) = Entry::read(text) else {
        return Err(Fault {
            rule: Rule::Text,
            place,
            other: 0,
        });
    };
    match first_alone(frame, put, place, &entry) {
        Some(rule) => Err(Fault {
            rule,
            place,
            other: 0,
        }),
        None => Ok(entry),
    }
}

/// The first of those rules that the entry breaks at `place`, where `put` is the latest put before it.
fn first_alone(frame: &Frame, put: &Put, place: u64, entry: &Entry) -> Option<Rule>
    ensures { result ≡ find (λ rule. entry_breaks (frame_view frame.now).side (put_view put.now) place (entry_view entry.now) (rule_view rule)) RULES_OF_ONE }
{
    RULES_OF_ONE
        .iter()
        .copied()
        .find(|rule| entry_breaks(frame, put, place, entry, *rule))
}

/// The fault at `end`, behind the last text, where `put` is the latest put of all: there is one where
/// the tip after has another.
pub(crate) fn end_fault(frame: &Frame, put: &Put, end: u64) -> Option<Fault>
    ensures { option_map fault_view result ≡ fault_behind (frame_view frame.now) (put_view put.now) end }
{
    if put.is(&Put::at(&frame.after)) {
        return None;
    }
    Some(Fault {
        rule: Rule::LastTip,
        place: end,
        other: 0,
    })
}
