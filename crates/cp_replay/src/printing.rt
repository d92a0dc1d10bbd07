//! The printed lines, appended to a text.
ghost use Rattle.std.specs.Prelude.{◌≡◌, ◌++◌, OnOk};
ghost use Rattle.cp_statements.specs.Attestation.{attestation_of};
ghost use Rattle.cp_statements.specs.Closing.{closing_of};
ghost use Rattle.cp_replay.specs.Printed.{at_line, booked_line, call_line, call_refused, close_refused, closed_line, labelled, place_of};
ghost use Rattle.cp_replay.specs.Replay.{printed};

use crate::OutOfMemory;
use cp_core::{Answer, Booked, CallRefusal, CloseRefusal};
use cp_statements::{Attestation, Closing, Kind};
use itoa::Buffer;

// A label and a number.
pub(crate) fn put_number(out: &mut Vec<u8>, label: &str, n: u64) -> Result<(), OutOfMemory>
    ensures { OnOk result (out.new.items ≡ out.old.items ++ labelled label.now n) }
{
    let mut buffer = Buffer::new();
    out.extend_from_slice(label.as_bytes())?;
    out.extend_from_slice(buffer.format(n).as_bytes())
}

// Two of them.
fn put_numbers(
    out: &mut Vec<u8>,
    first: &str,
    m: u64,
    second: &str,
    n: u64,
) -> Result<(), OutOfMemory>
    ensures { OnOk result (out.new.items
        ≡ out.old.items ++ (labelled first.now m ++ labelled second.now n)) }
{
    put_number(out, first, m)?;
    put_number(out, second, n)
}

// A refusal of a call.
#[tactic(auto, unfolding(crate::specs::Printed::call_refused))]
fn put_call_refused(out: &mut Vec<u8>, why: CallRefusal) -> Result<(), OutOfMemory>
    ensures { OnOk result (out.new.items ≡ out.old.items ++ call_refused why) }
{
    match why {
        CallRefusal::WrongEpoch { current } => put_number(out, "WrongEpoch current=", current),
        CallRefusal::NotAWriter { family, client } => put_numbers(
            out,
            "NotAWriter family=",
            u64::from(family),
            " client=",
            u64::from(client),
        ),
        CallRefusal::BadSignature => out.extend_from_slice(b"BadSignature"),
        CallRefusal::NonceUsed { position } => put_number(out, "NonceUsed position=", position),
        CallRefusal::Overtaken { latest } => put_number(out, "Overtaken latest=", latest),
        CallRefusal::StaleVersion { latest } => put_number(out, "StaleVersion latest=", latest),
        CallRefusal::OutOfMemory => out.extend_from_slice(b"OutOfMemory"),
        CallRefusal::PoolFull { free, need } => put_numbers(
            out,
            "PoolFull free=",
            u64::from(free),
            " need=",
            u64::from(need),
        ),
        CallRefusal::LeavesOver(over) => put_numbers(
            out,
            "LeavesOver drawn=",
            over.drawn,
            " limit=",
            over.limit,
        ),
    }
}

// A refusal of a closing.
#[tactic(auto, unfolding(crate::specs::Printed::close_refused))]
pub(crate) fn put_close_refused(out: &mut Vec<u8>, why: CloseRefusal) -> Result<(), OutOfMemory>
    ensures { OnOk result (out.new.items ≡ out.old.items ++ close_refused why) }
{
    match why {
        CloseRefusal::WrongEpoch { current } => put_number(out, "WrongEpoch current=", current),
        CloseRefusal::OtherList => out.extend_from_slice(b"OtherList"),
        CloseRefusal::ClosingsOver { sealed, limit } => put_numbers(
            out,
            "ClosingsOver sealed=",
            sealed,
            " limit=",
            limit,
        ),
    }
}

// Position, version and leaf of what is booked.
#[tactic(auto, unfolding(crate::specs::Printed::place_of))]
fn put_place(out: &mut Vec<u8>, label: &str, booked: &Booked) -> Result<(), OutOfMemory>
    ensures { OnOk result (out.new.items ≡ out.old.items
        ++ place_of label.now booked.now.leaf (attestation_of booked.now.text)) }
{
    match Attestation::read(booked.text()) {
        Ok(attestation) => {
            put_number(out, label, attestation.position)?;
            put_numbers(
                out,
                " version=",
                attestation.version,
                " leaf=",
                u64::from(booked.leaf()),
            )
        }
        Err(_) => Ok(()),
    }
}

// What is booked of a call.
#[tactic(auto, unfolding(crate::specs::Printed::booked_line))]
fn put_booked(out: &mut Vec<u8>, kind: Kind, booked: &Booked) -> Result<(), OutOfMemory>
    ensures { OnOk result (out.new.items ≡ out.old.items ++ booked_line kind booked.now) }
{
    match kind {
        Kind::Put => put_place(out, "put position=", booked),
        Kind::Get => {
            put_place(out, "get position=", booked)?;
            out.extend_from_slice(b" content=")?;
            out.extend_from_slice(booked.content())
        }
    }
}

// The line of an answer to a call, without its end.
#[tactic(auto, unfolding(crate::specs::Printed::call_line))]
fn put_answer(out: &mut Vec<u8>, kind: Kind, answer: &Answer) -> Result<(), OutOfMemory>
    ensures { OnOk result (out.new.items ≡ out.old.items ++ call_line kind answer.now) }
{
    match answer {
        Answer::Booked(booked) => put_booked(out, kind, booked),
        Answer::CallRefused(why) => put_call_refused(out, *why),
        // These answer no call.
        _ => Ok(()),
    }
}

// The line of an answer to a call.
pub(crate) fn print_call(out: &mut Vec<u8>, kind: Kind, answer: &Answer) -> Result<(), OutOfMemory>
    ensures { OnOk result (out.new.items ≡ printed out.old.items (call_line kind answer.now)) }
{
    put_answer(out, kind, answer)?;
    out.extend_from_slice(b"\n")
}

// The line of a closing that is refused.
pub(crate) fn print_refused(out: &mut Vec<u8>, why: CloseRefusal) -> Result<(), OutOfMemory>
    ensures { OnOk result (out.new.items ≡ printed out.old.items (close_refused why)) }
{
    put_close_refused(out, why)?;
    out.extend_from_slice(b"\n")
}

// The numbers of a closing's text.
#[tactic(auto, unfolding(crate::specs::Printed::closed_line))]
fn put_closed(out: &mut Vec<u8>, text: &[u8]) -> Result<(), OutOfMemory>
    ensures { OnOk result (out.new.items ≡ out.old.items ++ closed_line (closing_of text.now)) }
{
    match Closing::read(text) {
        Ok(closing) => {
            put_number(out, "closed epoch=", closing.epoch)?;
            put_numbers(out, " rows=", closing.rows, " entries=", closing.entries)
        }
        Err(_) => Ok(()),
    }
}

// The line of a closing.
pub(crate) fn print_closed(out: &mut Vec<u8>, text: &[u8]) -> Result<(), OutOfMemory>
    ensures { OnOk result (out.new.items
        ≡ printed out.old.items (closed_line (closing_of text.now))) }
{
    put_closed(out, text)?;
    out.extend_from_slice(b"\n")
}

// The line of an epoch that is named.
pub(crate) fn print_at(out: &mut Vec<u8>, epoch: u64) -> Result<(), OutOfMemory>
    ensures { OnOk result (out.new.items ≡ printed out.old.items (at_line epoch)) }
{
    put_number(out, "at ", epoch)?;
    out.extend_from_slice(b"\n")
}
