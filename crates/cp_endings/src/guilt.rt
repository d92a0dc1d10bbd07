//! What an audit's printed line names of the evidence.
ghost use Rattle.std.specs.Prelude.{◌≡◌};
ghost use Rattle.cp_evidence.specs.View.{evidence_view};
ghost use Rattle.cp_endings.specs.AuditEndings.{guilt_of};

use cp_evidence::Evidence;

/// What is named of the evidence that an audit wrote.
#[derive(Clone, Copy, Debug, PartialEq, Eq)]
pub enum Guilt {
    /// Evidence of this kind.
    OfKind(u8),
    /// Kind 6: this block went back.
    WentBack {
        block: u64,
    },
    /// Kind 7: the block's segment breaks this rule at a place, and beside another where the rule
    /// is of two.
    BrokeRule {
        block: u64,
        rule: u8,
        place: u64,
        other: u64,
    },
}

impl Guilt {
    /// What is named of this evidence.
    pub fn of(evidence: &Evidence) -> Guilt
        ensures { result ≡ guilt_of (evidence_view evidence.now) }
    {
        match evidence {
            Evidence::K6(e) => Guilt::WentBack { block: e.block },
            Evidence::K7(e) => Guilt::BrokeRule {
                block: e.block,
                rule: e.fault.rule.number(),
                place: e.fault.place,
                other: e.fault.other,
            },
            _ => Guilt::OfKind(evidence.kind()),
        }
    }
}
