//! Printing how a command on an operator's lives or on forgeries ended.
ghost use Rattle.std.specs.Prelude.{◌≡◌, ◌+◌, ◌≤◌, ◌++◌, length, codes, decimal};
ghost use Rattle.cp_endings.specs.Endings.{line_of};
ghost use Rattle.cp_endings.specs.MoreEndings.{low};
ghost use Rattle.cp_endings.specs.MoreView.{more_ending_view};
ghost use Rattle.cp_endings.specs.Reports.{PutsTo};

use crate::client_printing::numbers_beside;
use crate::more_ending::MoreEnding;
use crate::printing::{ROOM, put_both, put_line, put_number};
use cp_outside::{Failed, Sink};

// Writes a label and a leaf and a chain behind it.
fn put_place<S: Sink>(out: &mut S, leaf: u32, chain: u16) -> Result<(), Failed>
    ensures { PutsTo S.Endpoint out.old out.new result
        (codes "low leaf=" ++ (decimal leaf ++ codes " chain=" ++ decimal chain)) }
{
    let mut buffer = [0u8; ROOM];
    put_both(
        out,
        b"low leaf=",
        numbers_beside(&mut buffer, u64::from(leaf), b" chain=", u64::from(chain)),
    )
}

// Writes the rest of the line: a step and the revealed one.
fn put_steps<S: Sink>(out: &mut S, step: u8, revealed: u8) -> Result<(), Failed>
    ensures { PutsTo S.Endpoint out.old out.new result
        (codes " step=" ++ (decimal step ++ codes " revealed=" ++ decimal revealed) ++ codes "\n") }
{
    let mut buffer = [0u8; ROOM];
    put_line(
        out,
        b" step=",
        numbers_beside(
            &mut buffer,
            u64::from(step),
            b" revealed=",
            u64::from(revealed),
        ),
    )
}

// Writes the line of a low value.
fn put_low<S: Sink>(
    out: &mut S,
    leaf: u32,
    chain: u16,
    step: u8,
    revealed: u8,
) -> Result<(), Failed>
    ensures { PutsTo S.Endpoint out.old out.new result (line_of (low leaf chain step revealed)) }
{
    match put_place(out, leaf, chain) {
        Ok(()) => put_steps(out, step, revealed),
        Err(failed) => Err(failed),
    }
}

// Writes the line of an ending.
pub(crate) fn put_more_ending<S: Sink>(out: &mut S, ending: &MoreEnding) -> Result<(), Failed>
    ensures { PutsTo S.Endpoint out.old out.new result (line_of (more_ending_view ending.now)) }
{
    match *ending {
        MoreEnding::Certified { life } => put_number(out, b"certified life=", u64::from(life)),
        MoreEnding::BadCertificate => put_line(out, b"bad certificate", b""),
        MoreEnding::Twins => put_line(out, b"twins", b""),
        MoreEnding::Low {
            leaf,
            chain,
            step,
            revealed,
        } => put_low(out, leaf, chain, step, revealed),
        MoreEnding::NotForgedInvalid => put_line(out, b"not forged invalid", b""),
        MoreEnding::NotForgedKnown => put_line(out, b"not forged known", b""),
        MoreEnding::LeafUsed { leaf } => put_number(out, b"leaf used ", u64::from(leaf)),
    }
}
