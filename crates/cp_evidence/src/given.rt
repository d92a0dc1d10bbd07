//! What frames an epoch.
ghost use Rattle.cp_evidence.specs.Evidence.{given_at};

use cp_bytes::{Cut, Short};
use cp_statements::Envelope;

/// The closings of an epoch and of the one before, and the tables that they name.
#[derive(Clone, Copy, Debug, PartialEq, Eq)]
pub struct Given<'a> {
    /// The closing of the epoch.
    pub closing: Envelope<'a>,
    /// The closing of the epoch before; in epoch 1 its text and its signature are empty.
    pub before: Envelope<'a>,
    /// The table at the epoch's end.
    pub table: &'a [u8],
    /// The table at the end of the epoch before; empty in epoch 1.
    pub table_before: &'a [u8],
}

impl<'a> Given<'a> {
    ghost use Rattle.cp_bytes.specs.Reading.{ReadsOn};
    ghost use Rattle.cp_evidence.specs.View.{given_view};

    // The two envelopes and the two tables at the front.
    #[tactic(auto, unfolding(crate::specs::Evidence::given_at))]
    pub(crate) fn take(cut: &mut Cut<'a>) -> Result<Given<'a>, Short>
        ensures { ReadsOn given_view cut.old cut.new result (given_at cut.old.rest) }
    {
        let closing = Envelope::take(cut)?;
        let before = Envelope::take(cut)?;
        let table = cut.part()?;
        let table_before = cut.part()?;
        Ok(Given {
            closing,
            before,
            table,
            table_before,
        })
    }
}
