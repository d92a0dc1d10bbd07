//! Printing how a command ended.
ghost use Rattle.std.specs.Prelude.{◌≡◌, ◌+◌, ◌≤◌, ◌++◌, length, codes, decimal};
ghost use Rattle.hex.specs.Hex.{encode_lower};
ghost use Rattle.cp_endings.specs.Endings.{key_line, line_of, judged};
ghost use Rattle.cp_endings.specs.Reports.{PutsTo, ReportsTo};
ghost use Rattle.cp_endings.specs.View.{ending_view};

use crate::audit_printing::put_audit_ending;
use crate::client_printing::put_client_ending;
use crate::ending::Ending;
use crate::more_printing::put_more_ending;
use cp_bytes::put;
use cp_judge::Judgement;
use cp_outside::{Failed, Sink, put_all};
use itoa::Buffer;

// Room for the digits of a key.
pub(crate) const ROOM: usize = 112;

// The number's decimal digits.
fn digits(buffer: &mut [u8; ROOM], number: u64) -> &[u8]
    ensures { result.now ≡ decimal number }
{
    let mut text = Buffer::new();
    let text = text.format(number).as_bytes();
    put(buffer, 0, text);
    &buffer[..text.len()]
}

// Two numbers with a space between them.
fn two_numbers(buffer: &mut [u8; ROOM], first: u8, second: u8) -> &[u8]
    ensures { result.now ≡ decimal first ++ codes " " ++ decimal second }
{
    let mut first_text = Buffer::new();
    let mut second_text = Buffer::new();
    let first_text = first_text.format(first).as_bytes();
    let second_text = second_text.format(second).as_bytes();
    let at = first_text.len() + 1;
    put(buffer, 0, first_text);
    put(buffer, first_text.len(), b" ");
    put(buffer, at, second_text);
    &buffer[..at + second_text.len()]
}

// Writes all of a piece.
pub(crate) fn put_piece<S: Sink>(out: &mut S, piece: &[u8]) -> Result<(), Failed>
    ensures { PutsTo S.Endpoint out.old out.new result piece.now }
{
    put_all(out, piece)
}

// Writes two pieces, one after the other.
#[tactic(auto, using(crate::proofs::Pieces::pieces))]
pub(crate) fn put_both<S: Sink>(out: &mut S, first: &[u8], second: &[u8]) -> Result<(), Failed>
    ensures { PutsTo S.Endpoint out.old out.new result (first.now ++ second.now) }
{
    match put_piece(out, first) {
        Ok(()) => put_piece(out, second),
        Err(failed) => Err(failed),
    }
}

// Writes a text of two pieces and the end of its line.
#[tactic(auto, using(crate::proofs::Pieces::pieces))]
pub(crate) fn put_line<S: Sink>(out: &mut S, front: &[u8], back: &[u8]) -> Result<(), Failed>
    ensures { PutsTo S.Endpoint out.old out.new result (front.now ++ back.now ++ codes "\n") }
{
    match put_both(out, front, back) {
        Ok(()) => put_piece(out, b"\n"),
        Err(failed) => Err(failed),
    }
}

// Writes the line of a label and a number.
pub(crate) fn put_number<S: Sink>(out: &mut S, label: &[u8], number: u64) -> Result<(), Failed>
    ensures { PutsTo S.Endpoint out.old out.new result (label.now ++ decimal number ++ codes "\n") }
{
    let mut buffer = [0u8; ROOM];
    put_line(out, label, digits(&mut buffer, number))
}

// Writes the line of a condition that fails.
fn put_condition<S: Sink>(out: &mut S, kind: u8, condition: u8) -> Result<(), Failed>
    ensures { PutsTo S.Endpoint out.old out.new result
        (codes "not evidence K" ++ (decimal kind ++ codes " " ++ decimal condition) ++ codes "\n") }
{
    let mut buffer = [0u8; ROOM];
    put_line(
        out,
        b"not evidence K",
        two_numbers(&mut buffer, kind, condition),
    )
}

// Writes the line of a judgement.
fn put_judgement<S: Sink>(out: &mut S, judgement: Judgement) -> Result<(), Failed>
    ensures { PutsTo S.Endpoint out.old out.new result (line_of (judged judgement)) }
{
    match judgement {
        Judgement::BadKey => put_line(out, b"bad key", b""),
        Judgement::Malformed { at } => put_number(out, b"malformed ", at),
        Judgement::NotEvidence { kind, condition } => put_condition(out, kind, condition),
        Judgement::Guilty { kind } => put_number(out, b"guilty K", u64::from(kind)),
    }
}

// Writes the line of a key: its digits in lower-case hexadecimal.
fn put_key<S: Sink>(out: &mut S, key: &[u8; 56]) -> Result<(), Failed>
    ensures { PutsTo S.Endpoint out.old out.new result (key_line key.now) }
{
    let mut buffer = [0u8; ROOM];
    let _fits = hex::encode_to_slice(key.as_slice(), &mut buffer);
    put_line(out, b"key ", &buffer)
}

// Writes the line of an ending.
fn put_ending<S: Sink>(out: &mut S, ending: &Ending) -> Result<(), Failed>
    ensures { PutsTo S.Endpoint out.old out.new result (line_of (ending_view ending.now)) }
{
    let text: &'static [u8] = match ending {
        Ending::Missing { name } => return put_line(out, b"missing ", name.as_bytes()),
        Ending::TooLong { limit } => return put_number(out, b"too long ", *limit),
        Ending::Judged(judgement) => return put_judgement(out, *judgement),
        Ending::Key(key) => return put_key(out, key),
        Ending::Client(ending) => return put_client_ending(out, ending),
        Ending::Audited(ending) => return put_audit_ending(out, ending),
        Ending::More(ending) => return put_more_ending(out, ending),
        Ending::Malformed { at } => return put_number(out, b"malformed ", *at),
        Ending::Replayed(text) => return put_piece(out, text.as_slice()),
        Ending::Usage => b"usage",
        Ending::ShortSeed => b"short seed",
        Ending::BadKey => b"bad key",
        Ending::Valid => b"valid",
        Ending::Invalid => b"invalid",
        Ending::Fault => b"fault",
        Ending::NoMemory => b"no memory",
    };
    put_line(out, text, b"")
}

/// Prints the ending's lines, each with its end, and answers its status, or 4 where they can't all
/// be written: then a beginning of them is. Want of memory stays want of memory, 5.
pub fn report<S: Sink>(out: &mut S, ending: &Ending) -> u8
    ensures reports { ReportsTo S.Endpoint out.old out.new (ending_view ending.now) result }
    ensures count { S.write_faults out.old ≤ S.write_faults out.new }
{
    match put_ending(out, ending) {
        Ok(()) => ending.status(),
        Err(Failed) => match ending {
            Ending::NoMemory => 5,
            _ => 4,
        },
    }
}
