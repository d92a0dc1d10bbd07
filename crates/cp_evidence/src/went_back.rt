//! A block between two tables.
ghost use Rattle.cp_evidence.specs.Evidence.{went_back_at};

use crate::Given;
use cp_bytes::{Cut, Short};

/// A block whose row in an epoch's table is to have gone back behind its row in the table before.
#[derive(Clone, Copy, Debug, PartialEq, Eq)]
pub struct WentBack<'a> {
    /// The block's number.
    pub block: u64,
    /// The two closings and their tables.
    pub given: Given<'a>,
}

impl<'a> WentBack<'a> {
    ghost use Rattle.cp_bytes.specs.Reading.{ReadsOn};
    ghost use Rattle.cp_evidence.specs.View.{went_back_view};

    // The block and the frame at the front.
    #[tactic(auto, unfolding(crate::specs::Evidence::went_back_at))]
    pub(crate) fn take(cut: &mut Cut<'a>) -> Result<WentBack<'a>, Short>
        ensures { ReadsOn went_back_view cut.old cut.new result (went_back_at cut.old.rest) }
    {
        let block = cut.be_u64()?;
        let given = Given::take(cut)?;
        Ok(WentBack { block, given })
    }
}
