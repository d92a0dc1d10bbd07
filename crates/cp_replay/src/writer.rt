//! Who writes in a script.
ghost use Rattle.std.specs.Prelude.{◌≡◌};
ghost use Rattle.cp_replay.specs.Writers.{is_before, is_same};

/// A client that puts, and the family of the block.
#[derive(Clone, Copy, Debug, PartialEq, Eq)]
pub struct Writer {
    pub family: u32,
    pub client: u32,
}

impl Writer {
    // Whether it comes before the other, by family and then by client.
    pub(crate) fn is_before(self, other: Writer) -> bool
        ensures { result ≡ is_before self other }
    {
        self.family < other.family || self.family == other.family && self.client < other.client
    }

    // Whether both are one.
    pub(crate) fn is_same(self, other: Writer) -> bool
        ensures { result ≡ is_same self other }
    {
        self.family == other.family && self.client == other.client
    }
}
