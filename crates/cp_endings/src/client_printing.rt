//! Printing how a command of the client ended.
ghost use Rattle.std.specs.Prelude.{◌≡◌, ◌+◌, ◌≤◌, ◌++◌, length, codes, decimal};
ghost use Rattle.cp_statements.specs.View.{attestation_view};
ghost use Rattle.cp_endings.specs.Endings.{line_of};
ghost use Rattle.cp_endings.specs.ClientEndings.{field_name, refused};
ghost use Rattle.cp_endings.specs.ClientView.{accepted_line, client_ending_view};
ghost use Rattle.cp_endings.specs.Reports.{PutsTo};

use crate::client_ending::ClientEnding;
use crate::printing::{ROOM, put_line, put_number};
use cp_bytes::put;
use cp_client::{ClientRefusal, Field};
use cp_outside::{Failed, Sink};
use cp_statements::{Attestation, Kind};
use itoa::Buffer;

// Two numbers with a text between them.
pub(crate) fn numbers_beside<'b>(
    buffer: &'b mut [u8; ROOM],
    first: u64,
    text: &[u8],
    second: u64,
) -> &'b [u8]
    requires { length text.now ≤ 20 }
    ensures { result.now ≡ decimal first ++ text.now ++ decimal second }
{
    let mut first_digits = Buffer::new();
    let mut second_digits = Buffer::new();
    let first_digits = first_digits.format(first).as_bytes();
    let second_digits = second_digits.format(second).as_bytes();
    let at = first_digits.len() + text.len();
    put(buffer, 0, first_digits);
    put(buffer, first_digits.len(), text);
    put(buffer, at, second_digits);
    &buffer[..at + second_digits.len()]
}

// Writes the line of a label, a number, a text and another number.
fn put_numbers<S: Sink>(
    out: &mut S,
    label: &[u8],
    first: u64,
    text: &[u8],
    second: u64,
) -> Result<(), Failed>
    requires { length text.now ≤ 20 }
    ensures { PutsTo S.Endpoint out.old out.new result
        (label.now ++ (decimal first ++ text.now ++ decimal second) ++ codes "\n") }
{
    let mut buffer = [0u8; ROOM];
    put_line(out, label, numbers_beside(&mut buffer, first, text, second))
}

fn field_name(field: Field) -> &'static [u8]
    ensures { result.now ≡ field_name field }
{
    match field {
        Field::Store => b"store",
        Field::Kind => b"kind",
        Field::Epoch => b"epoch",
        Field::Block => b"block",
        Field::Client => b"client",
        Field::Nonce => b"nonce",
        Field::Version => b"version",
        Field::Hash => b"hash",
    }
}

// Writes the line of a refusal.
fn put_refusal<S: Sink>(out: &mut S, refusal: ClientRefusal) -> Result<(), Failed>
    ensures { PutsTo S.Endpoint out.old out.new result (line_of (refused refusal)) }
{
    match refusal {
        ClientRefusal::Malformed { at } => put_number(out, b"malformed ", at),
        ClientRefusal::BadSignature => put_line(out, b"bad signature", b""),
        ClientRefusal::OtherCall { field } => put_line(out, b"other call ", field_name(field)),
        ClientRefusal::ContentMismatch => put_line(out, b"content mismatch", b""),
        ClientRefusal::BadHead => put_line(out, b"bad head", b""),
    }
}

// Writes the line of an answer that was accepted.
fn put_accepted<S: Sink>(out: &mut S, attestation: &Attestation) -> Result<(), Failed>
    ensures { PutsTo S.Endpoint out.old out.new result (accepted_line attestation.now) }
{
    let label: &'static [u8] = match attestation.kind {
        Kind::Put => b"accepted put position=",
        Kind::Get => b"accepted get position=",
    };
    put_numbers(
        out,
        label,
        attestation.position,
        b" version=",
        attestation.version,
    )
}

// Writes the line of an ending.
pub(crate) fn put_client_ending<S: Sink>(out: &mut S, ending: &ClientEnding) -> Result<(), Failed>
    ensures { PutsTo S.Endpoint out.old out.new result (line_of (client_ending_view ending.now)) }
{
    match ending {
        ClientEnding::AskedPut { leaf } => put_number(out, b"asked leaf=", *leaf),
        ClientEnding::AskedGet => put_line(out, b"asked", b""),
        ClientEnding::Accepted(attestation) => put_accepted(out, attestation),
        ClientEnding::Refused(refusal) => put_refusal(out, *refusal),
        ClientEnding::Over { reserved, leaves } => {
            put_numbers(out, b"over reserved=", *reserved, b" leaves=", *leaves)
        }
        ClientEnding::OtherKey => put_line(out, b"other key", b""),
        ClientEnding::Damaged { reserved, leaves } => {
            put_numbers(out, b"damaged reserved=", *reserved, b" leaves=", *leaves)
        }
    }
}
