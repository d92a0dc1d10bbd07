//! Why a closing does not begin.

/// The refusals of a closing (this project's own).
#[derive(Clone, Copy, Debug, PartialEq, Eq)]
pub enum CloseRefusal {
    /// The epoch to be closed is `current`, and not the one that was named.
    WrongEpoch { current: u64 },
    /// The closing of the epoch has begun with another families list for the next one.
    OtherList,
    /// All leaves for closings are used: `sealed` epochs are closed, and `limit` is how many can be.
    ClosingsOver { sealed: u64, limit: u64 },
}
