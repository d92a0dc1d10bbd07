//! A table's text.
ghost use Rattle.std.specs.Prelude.{◌≡◌, IfOk, IsTrue};
ghost use Rattle.cp_tips.specs.Table.{table_text, row_text, ascends};
ghost use Rattle.cp_tips.specs.Tips.{rows_of};
ghost use Rattle.cp_tips.specs.View.{tip_view};

use crate::{OutOfMemory, Tip};
use cp_bytes::put;
use std::alloc::Global;
use std::collections::BTreeMap;

/// The table's text: the four bytes `CPt1`, then a row of 88 bytes for each block of the map,
/// ascending. `OutOfMemory` comes where its bytes can't be had.
pub fn build(alloc: Global, tips: &BTreeMap<u64, Tip>) -> Result<Vec<u8>, OutOfMemory>
    ensures text { IfOk result (λ text. text.items ≡ table_text (rows_of tips.now.entries)) }
    ensures ascends { IfOk result (λ _. IsTrue (ascends (rows_of tips.now.entries))) }
{
    let mut text = Vec::new(alloc);
    text.reserve(tips.len().saturating_mul(88).saturating_add(4))?;
    text.extend_from_slice(b"CPt1")?;
    for (block, tip) in tips {
        text.extend_from_slice(&row_text(*block, tip))?;
    }
    Ok(text)
}

// The 88 bytes of a row.
#[tactic(auto, unfolding(crate::specs::Table::row_text, cp_bytes::specs::Fields::spell))]
fn row_text(block: u64, tip: &Tip) -> [u8; 88]
    ensures { result ≡ row_text (record { block = block; tip = tip_view tip.now }) }
{
    let mut out = [0u8; 88];
    put(&mut out, 0, &block.to_be_bytes());
    put(&mut out, 8, &tip.count.to_be_bytes());
    put(&mut out, 16, &tip.version.to_be_bytes());
    put(&mut out, 24, &tip.content);
    put(&mut out, 56, &tip.head);
    out
}
