//! Tables of tips.
ghost use Rattle.std.specs.Prelude.{◌≡◌};
ghost use Rattle.cp_tips.specs.Rows.{comes_behind};

use crate::Tip;
use crate::rows::{block_of, count_of, left_in_row, tip_of};
use cp_bytes::Cut;
use cp_statements::{Malformed, take_tag};
use std::marker::Model;

/// A table's rows, each a block and its tip, which borrow the bytes that they were read from. Any bytes
/// of whole rows are a table's; `well_formed` judges them. Contracts see the list of rows.
#[derive(Drop)]
pub struct TableText<'a> {
    rows: &'a [[u8; 88]],
}

impl<'a> Model for TableText<'a> {
    ghost use Rattle.std.specs.Prelude.{List, map};
    ghost use Rattle.cp_tips.specs.Table.{TableRow};
    ghost use Rattle.cp_tips.specs.Rows.{row_of};

    ghost Value = { List TableRow };

    ghost view = { λ t. map row_of t.rows.now };
}

impl<'a> TableText<'a> {
    ghost use Rattle.std.specs.Prelude.{IsTrue, map};
    ghost use Rattle.std.specs.Bool.{OnTrue};
    ghost use Rattle.cp_statements.specs.Reading.{Reads};
    ghost use Rattle.cp_tips.specs.Rows.{row_of};
    ghost use Rattle.cp_tips.specs.Table.{table_of, well_formed, ascends, row};
    ghost use Rattle.cp_tips.specs.View.{tip_view};

    /// The table that all of the bytes spell: "CPt1" and rows of 88 bytes to the end, each the block,
    /// the count and the version in eight bytes, big endian, the content's hash and the head. A last
    /// row that is cut short is refused at its first field that isn't whole. It takes no memory.
    #[tactic(auto, unfolding(crate::specs::Table::table_of))]
    pub fn read(bytes: &'a [u8]) -> Result<TableText<'a>, Malformed>
        ensures { Reads (λ t. t) result (table_of bytes.now) }
    {
        let mut cut = Cut::new(bytes);
        take_tag(&mut cut, b"CPt1")?;
        let (rows, short) = cut.rest().as_chunks::<88>();
        if short.is_empty() {
            Ok(TableText { rows })
        } else {
            let left = left_in_row(short.len());
            Err(Malformed {
                at: (bytes.len() - left) as u64,
            })
        }
    }

    /// Whether the table is well formed for a closing of so many rows and entries: the rows ascend
    /// strictly by block, each count is at least 1, there are `rows` of them, and the exact sum of
    /// their counts is `entries`.
    pub fn well_formed(&self, rows: u64, entries: u64) -> bool
        ensures judges { result ≡ well_formed self.now rows entries }
        ensures ascends { OnTrue result (IsTrue (ascends self.now)) }
    {
        // What the counts to come are to sum up to.
        let mut left = entries;
        let mut before = None;
        for row in self.rows {
            let block = block_of(row);
            let count = count_of(row);
            if !comes_behind(before, block) || count == 0 || count > left {
                return false;
            }
            left -= count;
            before = Some(block);
        }
        left == 0 && self.rows.len() as u64 == rows
    }

    /// The tip of the block: its row's, found by bisection, or the fresh one where it has none.
    pub fn row(&self, block: u64) -> Tip
        requires { IsTrue (ascends self.now) }
        ensures { tip_view result ≡ row self.now block }
    {
        match self.rows.binary_search_by_key(&block, block_of) {
            Ok(at) => tip_of(&self.rows[at]),
            Err(_) => Tip::fresh(block),
        }
    }

    // Its rows where they lie.
    pub(crate) fn rows(&self) -> &'a [[u8; 88]]
        ensures { map row_of result.now ≡ self.now }
    {
        self.rows
    }
}

// Whether the block is greater than the one before.
fn comes_behind(before: Option<u64>, block: u64) -> bool
    ensures { result ≡ comes_behind before block }
{
    match before {
        None => true,
        Some(other) => other < block,
    }
}
