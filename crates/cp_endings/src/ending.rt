//! How a command ends: its status and its printed line.
ghost use Rattle.std.specs.Prelude.{◌≡◌};

use crate::audit_ending::AuditEnding;
use crate::client_ending::ClientEnding;
use crate::more_ending::MoreEnding;
use cp_bytes::Bytes;
use cp_judge::Judgement;

/// How a command ends.
#[derive(Debug, Drop)]
pub enum Ending<'a> {
    /// The words aren't a command's: status 2.
    Usage,
    /// An input file isn't there: status 3.
    Missing { name: &'a str },
    /// An input file has more than `limit` bytes: status 3.
    TooLong { limit: u64 },
    /// A seed file has fewer than 48 bytes: status 3.
    ShortSeed,
    /// A key file is no LMS public key: status 3.
    BadKey,
    /// What `judge` found: status 0 where it is guilty, 3 for a bad key, 1 otherwise.
    Judged(Judgement),
    /// `verify`: the signature verifies: status 0.
    Valid,
    /// `verify`: it doesn't: status 1.
    Invalid,
    /// `keygen`: the public key that was written: status 0.
    Key([u8; 56]),
    /// How a command of the client ended: status 0 or 3.
    Client(ClientEnding),
    /// How `audit` ended: status 0, 1 or 3.
    Audited(AuditEnding),
    /// `replay`: a line of the script doesn't read, the first with its first byte at `at`;
    /// `forgery`: an envelope doesn't, or isn't by a leaf of the key, the first at `at`: status 3.
    Malformed { at: u64 },
    /// `replay`: the files were written; the printed lines, each with its end: status 0.
    Replayed(Bytes),
    /// How `certify`, `judge-life` or `forgery` ended, in a way of its own: status 0, 1 or 3.
    More(MoreEnding),
    /// A call of the folder or the vault's disk failed: status 4.
    Fault,
    /// Memory was wanted: status 5.
    NoMemory,
}

impl<'a> Ending<'a> {
    ghost use Rattle.cp_endings.specs.View.{ending_view};

    /// The exit status.
    pub fn status(&self) -> u8
        ensures { result ≡ (ending_view self.now).status }
    {
        match self {
            Ending::Valid | Ending::Key(_) | Ending::Judged(Judgement::Guilty { .. }) => 0,
            Ending::Replayed(_) => 0,
            Ending::Invalid
            | Ending::Judged(Judgement::Malformed { .. } | Judgement::NotEvidence { .. }) => 1,
            Ending::Usage => 2,
            Ending::Missing { .. }
            | Ending::TooLong { .. }
            | Ending::ShortSeed
            | Ending::BadKey
            | Ending::Malformed { .. }
            | Ending::Judged(Judgement::BadKey) => 3,
            Ending::Client(ending) => ending.status(),
            Ending::Audited(ending) => ending.status(),
            Ending::More(ending) => ending.status(),
            Ending::Fault => 4,
            Ending::NoMemory => 5,
        }
    }
}
