//! The frame of an epoch: its closing, and what the tables of two epochs say of a block.
ghost use Rattle.std.specs.Prelude.{◌≡◌, [], IsTrue, IfSome, option_map, unwrap_or};
ghost use Rattle.cp_statements.specs.View.{closing_view};
ghost use Rattle.cp_tips.specs.View.{tip_view};
ghost use Rattle.cp_tips.specs.Table.{regressed, row};
ghost use Rattle.cp_chain.specs.View.{frame_view};
ghost use Rattle.cp_evidence.specs.Conditions.{frame_of, framed, rows_before, rows_for};
ghost use Rattle.cp_evidence.specs.View.{given_view};
ghost use Rattle.cp_judge.specs.Rows.{in_order, went_back};
ghost use Rattle.cp_judge.specs.View.{before_closing};

use crate::check::check;
use crate::closings::before;
use cp_bytes::digest;
use cp_chain::Frame;
use cp_evidence::{Before, Given, Store};
use cp_families::Families;
use cp_statements::Closing;
use cp_tips::{TableText, Tip};

// What the parts of a frame give, whose conditions hold.
#[derive(Drop)]
pub(crate) struct Framed<'a> {
    pub(crate) closing: Closing,
    // The epoch's table.
    rows: TableText<'a>,
    // The table of the epoch before; none in epoch 1.
    rows_before: Option<TableText<'a>>,
    ghost ordered: { IsTrue (in_order rows) },
    ghost ordered_before: { IsTrue (in_order (unwrap_or rows_before [])) },
}

// The rows of the table before, where it is well formed for its closing; none in epoch 1.
#[tactic(auto, using(crate::proofs::InOrder::orders))]
fn rows_before<'a>(bytes: &'a [u8], before: &Before) -> Option<Option<TableText<'a>>>
    ensures value { option_map (λ rows. unwrap_or rows []) result
        ≡ rows_before bytes.now (before_closing before.now) }
    ensures ordered { IfSome result (λ rows. IsTrue (in_order (unwrap_or rows []))) }
{
    match before {
        Before::Nothing => Some(None),
        Before::Closing(signed) => Some(Some(rows_for(bytes, &signed.closing)?)),
    }
}

impl<'a> Framed<'a> {
    ghost use Rattle.cp_judge.specs.FrameView.{framed_view, GivesFrame};

    // The frame, whose conditions are 1 to 7.
    #[tactic(auto, unfolding(cp_evidence::specs::Conditions::framed))]
    pub(crate) fn of(store: &Store, given: &Given<'a>) -> Result<Framed<'a>, u8>
        ensures { GivesFrame (framed store.now.key (given_view given.now)) result }
    {
        check(1, store.signed(&given.closing))?;
        let closing = store.closing(given.closing.text).ok_or(2)?;
        let before = before(store, &closing, &given.before).ok_or(3)?;
        check(4, digest(given.table) == closing.table)?;
        check(5, before.names_table(given.table_before))?;
        let rows = rows_for(given.table, &closing).ok_or(6)?;
        let rows_before = rows_before(given.table_before, &before).ok_or(7)?;
        Ok(Framed {
            closing,
            rows,
            rows_before,
        })
    }

    // The block's tip at the epoch's end.
    fn tip(&self, block: u64) -> Tip
        ensures { tip_view result ≡ row self.now.rows block }
    {
        self.rows.row(block)
    }

    // The block's tip at the end of the epoch before.
    fn tip_before(&self, block: u64) -> Tip
        ensures { tip_view result ≡ row (unwrap_or self.now.rows_before []) block }
    {
        match &self.rows_before {
            Some(rows) => rows.row(block),
            None => Tip::fresh(block),
        }
    }

    // Whether the block went back: its row vanished, its count fell, or its row changed at an equal
    // count.
    pub(crate) fn went_back(&self, block: u64) -> bool
        ensures { result
            ≡ regressed (framed_view self.now).rows_before (framed_view self.now).rows block }
    {
        went_back(&self.tip_before(block), &self.tip(block))
    }

    // Where the block's segment of the epoch stands, under this families list.
    pub(crate) fn frame<'f>(&self, store: &Store, families: Families<'f>, block: u64) -> Frame<'f>
        ensures { frame_view result
            ≡ frame_of store.now.key families.entry (framed_view self.now) block }
    {
        let id = store.id;
        let before = self.tip_before(block);
        let after = self.tip(block);
        Frame {
            store: id,
            families,
            epoch: self.closing.epoch,
            block,
            before,
            after,
        }
    }
}

// Whether a block that stood so before went back. One without a row has count 0, and one with a row
// a count above it.
fn went_back(before: &Tip, after: &Tip) -> bool
    ensures { result ≡ went_back (tip_view before.now) (tip_view after.now) }
{
    before.count > 0
        && (after.count < before.count || after.count == before.count && *before != *after)
}

// The rows of a table that is well formed for its closing.
#[tactic(auto, using(crate::proofs::InOrder::orders))]
pub(crate) fn rows_for<'a>(bytes: &'a [u8], closing: &Closing) -> Option<TableText<'a>>
    ensures value { result ≡ rows_for bytes.now (closing_view closing.now) }
    ensures ordered { IfSome result (λ rows. IsTrue (in_order rows)) }
{
    let table = TableText::read(bytes).ok()?;
    if table.well_formed(closing.rows, closing.entries) {
        Some(table)
    } else {
        None
    }
}
