//! The writers of a script, and the text of their families list.
ghost use Rattle.std.specs.Prelude.{◌≡◌, ◌++◌, ◌∷◌, ◌<◌, ◌≤◌, ◌^◌, [], IfOk, OnOk, filter, length, map, not, position};
ghost use Rattle.cp_families.specs.Families.{families_text, family_text};
ghost use Rattle.cp_replay.specs.Writers.{is_before, is_other, row_for, rows_text, with_line, with_lines, with_writer};

use crate::writer::Writer;
use crate::{Line, OutOfMemory};
use cp_families::family_of;
use std::alloc::Global;

// The first place whose writer doesn't come before this one.
fn place_for(writers: &[Writer], writer: Writer) -> Option<usize>
    ensures { result ≡ position (λ w. not (is_before w writer)) writers.now }
{
    writers.iter().position(|w| !w.is_before(writer))
}

// Puts a writer in its place, unless it is there.
#[tactic(auto, using(crate::proofs::Inserted::inserted))]
fn add_writer(writers: &mut Vec<Writer>, writer: Writer) -> Result<(), OutOfMemory>
    ensures { OnOk result (writers.new.items ≡ with_writer writers.old.items writer) }
{
    match place_for(writers, writer) {
        None => {
            writers.push(writer)?;
            Ok(())
        }
        Some(place) if writers[place].is_same(writer) => Ok(()),
        Some(place) => {
            writers.insert(place, writer)?;
            Ok(())
        }
    }
}

// Puts the client of a put line in its place.
fn add_line(writers: &mut Vec<Writer>, line: &Line) -> Result<(), OutOfMemory>
    ensures { OnOk result (writers.new.items ≡ with_line writers.old.items line.now) }
{
    match line {
        Line::Put { client, block, .. } => add_writer(
            writers,
            Writer {
                family: family_of(*block),
                client: *client,
            },
        ),
        _ => Ok(()),
    }
}

// The writers of all lines.
#[tactic(auto, using(crate::proofs::WriterLemmas::each_line), unfolding(crate::specs::Writers::with_lines))]
pub(crate) fn writers_of(alloc: Global, lines: &[Line]) -> Result<Vec<Writer>, OutOfMemory>
    ensures writers { IfOk result (λ writers. writers.items ≡ with_lines [] lines.now) }
    ensures few { IfOk result (λ writers. length writers.items ≤ length lines.now) }
{
    let mut writers = Vec::new(alloc);
    for line in lines {
        add_line(&mut writers, line)?;
    }
    Ok(writers)
}

// Appends a row.
#[tactic(auto, unfolding(cp_families::specs::Families::family_text))]
fn put_row(out: &mut Vec<u8>, writer: Writer, key: &[u8; 56]) -> Result<(), OutOfMemory>
    ensures { OnOk result (out.new.items ≡ out.old.items ++ family_text (row_for key.now writer)) }
{
    out.extend_from_slice(&writer.family.to_be_bytes())?;
    out.extend_from_slice(&writer.client.to_be_bytes())?;
    out.extend_from_slice(key)
}

// Appends a row for each writer.
#[tactic(auto, using(crate::proofs::WriterLemmas::each_row))]
fn put_rows(out: &mut Vec<u8>, writers: &[Writer], key: &[u8; 56]) -> Result<(), OutOfMemory>
    ensures { OnOk result (out.new.items ≡ out.old.items ++ rows_text key.now writers.now) }
{
    for writer in writers {
        put_row(out, *writer, key)?;
    }
    Ok(())
}

// The text of the families list that has this key for each of the writers.
#[tactic(auto, unfolding(cp_families::specs::Families::families_text))]
pub(crate) fn list_text(
    alloc: Global,
    writers: &[Writer],
    key: &[u8; 56],
) -> Result<Vec<u8>, OutOfMemory>
    requires { length writers.now < 2 ^ 32 }
    ensures { IfOk result (λ text. text.items ≡ families_text (map (row_for key.now) writers.now)) }
{
    let mut out = Vec::from_slice(alloc, b"CPf1")?;
    let count = writers.len() as u32;
    out.extend_from_slice(&count.to_be_bytes())?;
    put_rows(&mut out, writers, key)?;
    Ok(out)
}

// Appends the writer, unless it is this client.
fn add_other(others: &mut Vec<Writer>, writer: Writer, client: u32) -> Result<(), OutOfMemory>
    ensures { OnOk result (others.new.items
        ≡ others.old.items ++ filter (is_other client) (writer ∷ [])) }
{
    if writer.client != client {
        others.push(writer)?;
    }
    Ok(())
}

// The writers that are another client, in their order.
#[tactic(auto, using(crate::proofs::WriterLemmas::each_other))]
pub(crate) fn others(
    alloc: Global,
    writers: &[Writer],
    client: u32,
) -> Result<Vec<Writer>, OutOfMemory>
    ensures { IfOk result (λ others. others.items ≡ filter (is_other client) writers.now) }
{
    let mut others = Vec::new(alloc);
    for writer in writers {
        add_other(&mut others, *writer, client)?;
    }
    Ok(others)
}
