//! How the client's commands end.
ghost use Rattle.std.specs.Prelude.{◌≡◌};

use cp_client::ClientRefusal;
use cp_statements::Attestation;

/// How a command of the client ends.
#[derive(Clone, Copy, Debug, PartialEq, Eq)]
pub enum ClientEnding {
    /// `ask-put`: the put body was written, signed by this leaf: status 0.
    AskedPut { leaf: u64 },
    /// `ask-get`: the get request was written: status 0.
    AskedGet,
    /// `accept`: the store attests this, and the envelope and the content were written: status 0.
    Accepted(Attestation),
    /// `accept`: the request doesn't read, or the answer isn't accepted: status 3.
    Refused(ClientRefusal),
    /// `ask-put`: no leaf of the key is left: status 3.
    Over { reserved: u64, leaves: u64 },
    /// `ask-put`: the vault is another key's: status 3.
    OtherKey,
    /// `ask-put`: the vault has more leaves reserved than the key has: status 3.
    Damaged { reserved: u64, leaves: u64 },
}

impl ClientEnding {
    ghost use Rattle.cp_endings.specs.ClientView.{client_ending_view};

    /// The exit status.
    pub fn status(&self) -> u8
        ensures { result ≡ (client_ending_view self.now).status }
    {
        match self {
            ClientEnding::AskedPut { .. } | ClientEnding::AskedGet | ClientEnding::Accepted(_) => 0,
            ClientEnding::Refused(_)
            | ClientEnding::Over { .. }
            | ClientEnding::OtherKey
            | ClientEnding::Damaged { .. } => 3,
        }
    }
}
