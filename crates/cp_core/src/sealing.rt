//! The seal at an epoch's end.
ghost use Rattle.std.specs.Prelude.{◌≡◌, ◌<◌, ◌≤◌, ◌^◌, length, sum_by, IfOk};
ghost use Rattle.cp_statements.specs.View.{closing_view};
ghost use Rattle.cp_tips.specs.Table.{table_text};
ghost use Rattle.cp_tips.specs.Tips.{rows_of};
ghost use Rattle.cp_core.specs.Kept.{Keeps};
ghost use Rattle.cp_core.specs.Sealing.{closing_at, families_at, link_after, seal_at, table_at};
ghost use Rattle.cp_core.specs.Store.{StoreFits};
ghost use Rattle.cp_core.specs.View.{state_view, store_view};
ghost use Rattle.cp_core.specs.declared.phase.Phase.TheVariants.{Full};

use crate::machine::Machine;
use crate::tables::tips_at;
use crate::writers::list_at;
use crate::{OutOfMemory, SealItem};
use cp_bytes::{Bytes, digest};
use cp_statements::Closing;
use cp_tips::{Tip, build};
use std::alloc::Global;
use std::collections::BTreeMap;

/// The link of the next closing: the digest of the last one's text, or 32 zero bytes.
fn link_after(seals: &[SealItem]) -> [u8; 32]
    ensures { result ≡ link_after seals.now }
{
    match seals {
        [] => [0; 32],
        [.., last] => digest(last.text.as_slice()),
    }
}

/// How many entries the blocks have.
fn entries_in(tips: &BTreeMap<u64, Tip>) -> u64
    requires { sum_by (λ row. row.tip.count) (rows_of tips.now.entries) < 2 ^ 64 }
    ensures { result ≡ sum_by (λ row. row.tip.count) (rows_of tips.now.entries) }
{
    let mut entries = 0;
    for (_, tip) in tips {
        entries += tip.count;
    }
    entries
}

/// The closing of the epoch, over its families list and a table of these tips with this text.
fn closing_of(
    machine: &Machine,
    epoch: u64,
    families: &[u8],
    tips: &BTreeMap<u64, Tip>,
    table: &[u8],
) -> Closing
    requires families { families.now ≡ families_at (store_view machine.now) machine.now.life epoch }
    requires tips { rows_of tips.now.entries ≡ table_at machine.now.life epoch }
    requires table { table.now ≡ table_text (table_at machine.now.life epoch) }
    requires entries { sum_by (λ row. row.tip.count) (rows_of tips.now.entries) < 2 ^ 64 }
    ensures { closing_view result ≡ closing_at (store_view machine.now) machine.now.life epoch }
{
    let store = machine.store;
    Closing {
        store,
        epoch,
        link: link_after(machine.life.seals.as_slice()),
        families: digest(families),
        table: digest(table),
        rows: tips.len() as u64,
        entries: entries_in(tips),
    }
}

/// The seal of the epoch.
pub(crate) fn seal_at(alloc: Global, machine: &Machine, epoch: u64) -> Result<SealItem, OutOfMemory>
    requires keeps { Keeps (store_view machine.now) (state_view machine.now) }
    requires fits { StoreFits (store_view machine.now) }
    requires phase { machine.now.phase ≡ Full epoch }
    ensures { IfOk result (λ seal. seal ≡ seal_at (store_view machine.now) machine.now.life epoch) }
{
    let tips = tips_at(alloc, machine.life.shards.as_slice(), epoch)?;
    let table = build(alloc, &tips)?;
    let families = list_at(&machine.families, machine.first_items(), epoch).as_slice();
    let closing = closing_of(machine, epoch, families, &tips, &table).text();
    let text = Vec::from_slice(alloc, &closing)?;
    let families = Vec::from_slice(alloc, families)?;
    Ok(SealItem {
        epoch,
        leaf: (machine.attestations + (epoch - 1)) as u32,
        text: Bytes::from_vec(text),
        table: Bytes::from_vec(table),
        families: Bytes::from_vec(families),
    })
}
