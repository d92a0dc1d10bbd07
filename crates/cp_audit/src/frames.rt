//! The frames of an epoch's segments.
ghost use Rattle.std.specs.Prelude.{◌≡◌, true};
ghost use Rattle.cp_tips.specs.Table.{ascends};
ghost use Rattle.cp_chain.specs.View.{frame_view};
ghost use Rattle.cp_evidence.specs.Material.{rows_in_table};

use cp_chain::Frame;
use cp_families::Families;
use cp_tips::TableText;

// The store, the families list and the epoch, and the two tables between which the epoch's segments
// stand. Both ascend.
#[derive(Drop)]
pub(crate) struct Frames<'a> {
    pub(crate) store: [u8; 32],
    pub(crate) families: Families<'a>,
    pub(crate) epoch: u64,
    pub(crate) before: TableText<'a>,
    pub(crate) after: TableText<'a>,
    ghost before_ascends: { ascends before ≡ true },
    ghost after_ascends: { ascends after ≡ true },
}

impl<'a> Frames<'a> {
    ghost use Rattle.cp_audit.specs.Parts.{frame_in};

    // The frame of a block's segment.
    pub(crate) fn at(&self, block: u64) -> Frame<'a>
        ensures { frame_view result ≡ frame_in self.now block }
    {
        Frame {
            store: self.store,
            families: self.families.copy(),
            epoch: self.epoch,
            block,
            before: self.before.row(block),
            after: self.after.row(block),
        }
    }
}

// The table that the bytes spell, without rows where they spell none.
pub(crate) fn table_in(bytes: &[u8]) -> TableText<'_>
    ensures { result ≡ rows_in_table bytes.now }
{
    if let Ok(table) = TableText::read(bytes) {
        return table;
    }
    match TableText::read(b"CPt1") {
        Ok(table) => table,
        Err(_) => unreachable!(),
    }
}
