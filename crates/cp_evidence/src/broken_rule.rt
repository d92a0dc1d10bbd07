//! A rule that a segment breaks.
ghost use Rattle.cp_evidence.specs.Evidence.{rule_at, broken_rule_at};
ghost use Rattle.cp_chain.specs.View.{rule_view};
ghost use Rattle.cp_statements.specs.Reading.{ReadsOn};

use crate::Given;
use cp_bytes::Cut;
use cp_chain::{Fault, Rule, Segment};
use cp_statements::Malformed;

/// A rule that a block's segment is to break, between two tables and under a families list.
#[derive(Drop)]
pub struct BrokenRule<'a> {
    /// The block's number.
    pub block: u64,
    /// The rule, and where it is broken.
    pub fault: Fault,
    /// The two closings and their tables.
    pub given: Given<'a>,
    /// The bytes of the families list that the closing names.
    pub families: &'a [u8],
    /// The block's segment between them.
    pub segment: Segment<'a>,
}

impl<'a> BrokenRule<'a> {
    ghost use Rattle.cp_evidence.specs.View.{broken_rule_view};

    // The numbers and parts at the front.
    #[tactic(auto, unfolding(crate::specs::Evidence::broken_rule_at))]
    pub(crate) fn take(cut: &mut Cut<'a>) -> Result<BrokenRule<'a>, Malformed>
        ensures { ReadsOn broken_rule_view cut.old cut.new result (broken_rule_at cut.old.rest) }
    {
        let block = cut.be_u64()?;
        let rule = take_rule(cut)?;
        let place = cut.be_u64()?;
        let other = cut.be_u64()?;
        let given = Given::take(cut)?;
        let families = cut.part()?;
        let segment = Segment::take(cut)?;
        Ok(BrokenRule {
            block,
            fault: Fault { rule, place, other },
            given,
            families,
            segment,
        })
    }
}

// The rule whose number stands at the front. Another number is refused at its first byte.
#[tactic(auto, unfolding(crate::specs::Evidence::rule_at))]
fn take_rule(cut: &mut Cut) -> Result<Rule, Malformed>
    ensures { ReadsOn rule_view cut.old cut.new result (rule_at cut.old.rest) }
{
    let at = cut.at();
    let number = cut.be_u64()?;
    match Rule::of(number) {
        Some(rule) => Ok(rule),
        None => Err(Malformed { at }),
    }
}
