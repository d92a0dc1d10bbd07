//! A closing and a table.
ghost use Rattle.cp_evidence.specs.Evidence.{closing_table_at};

use cp_bytes::{Cut, Short};
use cp_statements::Envelope;

/// A closing and the bytes that are to be its table.
#[derive(Clone, Copy, Debug, PartialEq, Eq)]
pub struct ClosingTable<'a> {
    /// The closing's envelope.
    pub closing: Envelope<'a>,
    /// The table's bytes.
    pub table: &'a [u8],
}

impl<'a> ClosingTable<'a> {
    ghost use Rattle.cp_bytes.specs.Reading.{ReadsOn};
    ghost use Rattle.cp_evidence.specs.View.{closing_table_view};

    // The closing and the table at the front.
    #[tactic(auto, unfolding(crate::specs::Evidence::closing_table_at))]
    pub(crate) fn take(cut: &mut Cut<'a>) -> Result<ClosingTable<'a>, Short>
        ensures { ReadsOn closing_table_view cut.old cut.new result (closing_table_at cut.old.rest) }
    {
        let closing = Envelope::take(cut)?;
        let table = cut.part()?;
        Ok(ClosingTable { closing, table })
    }
}
