//! Printing how `audit` ended.
ghost use Rattle.std.specs.Prelude.{◌++◌, codes, decimal};
ghost use Rattle.cp_audit.specs.View.{what_view};
ghost use Rattle.cp_endings.specs.AuditEndings.{broken_text, clean, guilty, labelled, not_given, places_text};
ghost use Rattle.cp_endings.specs.AuditView.{audit_ending_view};
ghost use Rattle.cp_endings.specs.EpochFiles.{epoch_file};
ghost use Rattle.cp_endings.specs.Endings.{line_of, missing};
ghost use Rattle.cp_endings.specs.Reports.{PutsTo};

use crate::audit_ending::AuditEnding;
use crate::epoch_part::EpochPart;
use crate::guilt::Guilt;
use crate::printing::{put_line, put_number, put_piece};
use cp_audit::What;
use cp_outside::{Failed, Sink};
use itoa::Buffer;

// Writes a label and a number.
#[tactic(auto, using(crate::proofs::Pieces::pieces))]
fn put_labelled<S: Sink>(out: &mut S, label: &[u8], number: u64) -> Result<(), Failed>
    ensures { PutsTo S.Endpoint out.old out.new result (labelled label.now number) }
{
    match put_piece(out, label) {
        Ok(()) => {
            let mut digits = Buffer::new();
            put_piece(out, digits.format(number).as_bytes())
        }
        Err(failed) => Err(failed),
    }
}

// Writes two numbers, each behind its label.
#[tactic(auto, using(crate::proofs::Pieces::pieces))]
fn put_two<S: Sink>(
    out: &mut S,
    label: &[u8],
    number: u64,
    second_label: &[u8],
    second: u64,
) -> Result<(), Failed>
    ensures { PutsTo S.Endpoint out.old out.new result
        (labelled label.now number ++ labelled second_label.now second) }
{
    match put_labelled(out, label, number) {
        Ok(()) => put_labelled(out, second_label, second),
        Err(failed) => Err(failed),
    }
}

// Writes the line of a clean epoch.
#[tactic(auto, using(crate::proofs::Pieces::pieces))]
fn put_clean<S: Sink>(out: &mut S, entries: u64, handed: u64, aside: u64) -> Result<(), Failed>
    ensures { PutsTo S.Endpoint out.old out.new result (line_of (clean entries handed aside)) }
{
    match put_two(out, b"clean entries=", entries, b" handed=", handed) {
        Ok(()) => put_number(out, b" aside=", aside),
        Err(failed) => Err(failed),
    }
}

// Writes the line of a rule that is broken.
#[tactic(auto, using(crate::proofs::Pieces::pieces))]
fn put_broken<S: Sink>(
    out: &mut S,
    block: u64,
    rule: u8,
    place: u64,
    other: u64,
) -> Result<(), Failed>
    ensures { PutsTo S.Endpoint out.old out.new result
        (broken_text block rule ++ places_text place other) }
{
    match put_two(out, b"guilty K7 block=", block, b" rule=", u64::from(rule)) {
        Ok(()) => put_places(out, place, other),
        Err(failed) => Err(failed),
    }
}

// Writes the places where a rule is broken, and ends the line.
#[tactic(auto, using(crate::proofs::Pieces::pieces))]
fn put_places<S: Sink>(out: &mut S, place: u64, other: u64) -> Result<(), Failed>
    ensures { PutsTo S.Endpoint out.old out.new result (places_text place other) }
{
    match put_labelled(out, b" place=", place) {
        Ok(()) => put_number(out, b" other=", other),
        Err(failed) => Err(failed),
    }
}

// Writes the line of guilt.
fn put_guilty<S: Sink>(out: &mut S, guilt: Guilt) -> Result<(), Failed>
    ensures { PutsTo S.Endpoint out.old out.new result (line_of (guilty guilt)) }
{
    match guilt {
        Guilt::OfKind(kind) => put_number(out, b"guilty K", u64::from(kind)),
        Guilt::WentBack { block } => put_number(out, b"guilty K6 block=", block),
        Guilt::BrokeRule {
            block,
            rule,
            place,
            other,
        } => put_broken(out, block, rule, place, other),
    }
}

// Writes the line of what isn't given.
fn put_not_given<S: Sink>(out: &mut S, what: What) -> Result<(), Failed>
    ensures { PutsTo S.Endpoint out.old out.new result (line_of (not_given (what_view what))) }
{
    let text: &'static [u8] = match what {
        What::Log(block) => return put_number(out, b"not given log ", block),
        What::Families => b"not given families",
        What::ClosingBefore => b"not given closing before",
        What::Closing => b"not given closing",
        What::TableBefore => b"not given table before",
        What::Table => b"not given table",
        What::LogText => b"not given log text",
    };
    put_line(out, text, b"")
}

// Writes the line of a file that isn't there.
fn put_missing<S: Sink>(out: &mut S, part: EpochPart, epoch: u64) -> Result<(), Failed>
    ensures { PutsTo S.Endpoint out.old out.new result (line_of (missing (epoch_file part epoch))) }
{
    match part {
        EpochPart::Families => put_number(out, b"missing families-", epoch),
        EpochPart::Closing => put_number(out, b"missing closing-", epoch),
        EpochPart::Table => put_number(out, b"missing table-", epoch),
        EpochPart::Log => put_number(out, b"missing log-", epoch),
    }
}

// Writes the line of an ending of `audit`.
pub(crate) fn put_audit_ending<S: Sink>(out: &mut S, ending: &AuditEnding) -> Result<(), Failed>
    ensures { PutsTo S.Endpoint out.old out.new result (line_of (audit_ending_view ending.now)) }
{
    match ending {
        AuditEnding::Clean {
            entries,
            handed,
            aside,
        } => put_clean(out, *entries, *handed, *aside),
        AuditEnding::Guilty(guilt) => put_guilty(out, *guilt),
        AuditEnding::NotGiven(what) => put_not_given(out, *what),
        AuditEnding::Malformed { at } => put_number(out, b"malformed ", *at),
        AuditEnding::Missing { part, epoch } => put_missing(out, *part, *epoch),
    }
}
