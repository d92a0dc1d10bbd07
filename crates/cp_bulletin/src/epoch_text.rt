//! The text of one epoch.
ghost use Rattle.std.specs.Prelude.{IsTrue, ◌≡◌};
ghost use Rattle.cp_bulletin.specs.Texts.{contents_of};

/// What a store publishes when it closes an epoch.
#[derive(Drop)]
pub struct EpochText {
    /// The signed closing, an envelope.
    pub closing: Vec<u8>,
    /// The text of the epoch's table.
    pub table: Vec<u8>,
    /// The text of the epoch's log.
    pub log: Vec<u8>,
    /// The text of the store's families.
    pub families: Vec<u8>,
}

impl EpochText {
    // Whether both say the same.
    pub(crate) fn says_as(&self, other: &EpochText) -> bool
        ensures { IsTrue result → contents_of self.now ≡ contents_of other.now }
    {
        self.closing == other.closing
            && self.table == other.table
            && self.log == other.log
            && self.families == other.families
    }
}
