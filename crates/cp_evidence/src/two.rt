//! Two signed texts.
ghost use Rattle.cp_evidence.specs.Evidence.{two_at};

use cp_bytes::{Cut, Short};
use cp_statements::Envelope;

/// Two signed texts, which contradict each other or the closings that they are.
#[derive(Clone, Copy, Debug, PartialEq, Eq)]
pub struct Two<'a> {
    /// The first; at kind 5 the closing whose link is wrong.
    pub x: Envelope<'a>,
    /// The second; at kind 5 the closing before, empty in epoch 1.
    pub y: Envelope<'a>,
}

impl<'a> Two<'a> {
    ghost use Rattle.cp_bytes.specs.Reading.{ReadsOn};
    ghost use Rattle.cp_evidence.specs.View.{two_view};

    // The two envelopes at the front.
    #[tactic(auto, unfolding(crate::specs::Evidence::two_at))]
    pub(crate) fn take(cut: &mut Cut<'a>) -> Result<Two<'a>, Short>
        ensures { ReadsOn two_view cut.old cut.new result (two_at cut.old.rest) }
    {
        let x = Envelope::take(cut)?;
        let y = Envelope::take(cut)?;
        Ok(Two { x, y })
    }
}
