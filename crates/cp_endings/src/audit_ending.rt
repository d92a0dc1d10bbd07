//! How `audit` ends.
ghost use Rattle.std.specs.Prelude.{◌≡◌};

use crate::epoch_part::EpochPart;
use crate::guilt::Guilt;
use cp_audit::What;

/// How an audit ends.
#[derive(Clone, Copy, Debug, PartialEq, Eq)]
pub enum AuditEnding {
    /// The epoch is clean, with the number of the log's texts, of the hand-ins that verify as
    /// attestations of the epoch, and of all others: status 0.
    Clean {
        entries: u64,
        handed: u64,
        aside: u64,
    },
    /// The store is guilty, and the evidence was written: status 1.
    Guilty(Guilt),
    /// A part of the material isn't given: status 3.
    NotGiven(What),
    /// The hand-ins don't read, first at this offset: status 3.
    Malformed {
        at: u64,
    },
    /// A file of an epoch's material isn't there: status 3.
    Missing {
        part: EpochPart,
        epoch: u64,
    },
}

impl AuditEnding {
    ghost use Rattle.cp_endings.specs.AuditView.{audit_ending_view};

    /// The exit status.
    pub fn status(&self) -> u8
        ensures { result ≡ (audit_ending_view self.now).status }
    {
        match self {
            AuditEnding::Clean { .. } => 0,
            AuditEnding::Guilty(_) => 1,
            AuditEnding::NotGiven(_)
            | AuditEnding::Malformed { .. }
            | AuditEnding::Missing { .. } => 3,
        }
    }
}
