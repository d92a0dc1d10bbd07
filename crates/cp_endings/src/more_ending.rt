//! How the commands on an operator's lives and on forgeries end.
ghost use Rattle.std.specs.Prelude.{◌≡◌};

/// How `certify`, `judge-life` or `forgery` ends, where it ends in a way of its own.
#[derive(Clone, Copy, Debug, PartialEq, Eq)]
pub enum MoreEnding {
    /// `certify`: the operator's key, the certificate of this life and its seed were written:
    /// status 0.
    Certified {
        life: u32,
    },
    /// `judge-life`: the certificate isn't one under the operator's key: status 3.
    BadCertificate,
    /// `forgery`: two different texts have one digest: status 0.
    Twins,
    /// `forgery`: the signature of the leaf `leaf` has a value of chain `chain` before step `step`,
    /// and the first that the key showed stands before the later step `revealed`: status 0.
    Low {
        leaf: u32,
        chain: u16,
        step: u8,
        revealed: u8,
    },
    /// `forgery`: the signature doesn't verify: status 1.
    NotForgedInvalid,
    /// `forgery`: the key signed this text with this leaf: status 1.
    NotForgedKnown,
    /// `forgery`: the envelopes have two texts for this leaf: status 3.
    LeafUsed {
        leaf: u32,
    },
}

impl MoreEnding {
    ghost use Rattle.cp_endings.specs.MoreView.{more_ending_view};

    /// The exit status.
    pub fn status(&self) -> u8
        ensures { result ≡ (more_ending_view self.now).status }
    {
        match self {
            MoreEnding::Certified { .. } | MoreEnding::Twins | MoreEnding::Low { .. } => 0,
            MoreEnding::NotForgedInvalid | MoreEnding::NotForgedKnown => 1,
            MoreEnding::BadCertificate | MoreEnding::LeafUsed { .. } => 3,
        }
    }
}
