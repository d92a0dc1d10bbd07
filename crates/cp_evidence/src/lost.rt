//! An attestation beside a segment.
ghost use Rattle.cp_evidence.specs.Evidence.{lost_at};

use crate::Given;
use cp_bytes::{Cut, Short};
use cp_chain::Segment;
use cp_statements::Envelope;

/// An attestation that is to be outside the counts of its block in two tables, or not to stand in the
/// block's segment between them.
#[derive(Drop)]
pub struct Lost<'a> {
    /// The two closings and their tables.
    pub given: Given<'a>,
    /// The attestation's envelope.
    pub attestation: Envelope<'a>,
    /// The block's segment between them. The audit leaves it empty where the attestation is outside the
    /// counts.
    pub segment: Segment<'a>,
}

impl<'a> Lost<'a> {
    ghost use Rattle.cp_bytes.specs.Reading.{ReadsOn};
    ghost use Rattle.cp_evidence.specs.View.{lost_view};

    // The parts at the front.
    #[tactic(auto, unfolding(crate::specs::Evidence::lost_at))]
    pub(crate) fn take(cut: &mut Cut<'a>) -> Result<Lost<'a>, Short>
        ensures { ReadsOn lost_view cut.old cut.new result (lost_at cut.old.rest) }
    {
        let given = Given::take(cut)?;
        let attestation = Envelope::take(cut)?;
        let segment = Segment::take(cut)?;
        Ok(Lost {
            given,
            attestation,
            segment,
        })
    }
}
