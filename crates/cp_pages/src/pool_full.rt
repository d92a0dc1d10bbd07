/// The refusal of a content that has no room: it needs more pages than are free.
#[derive(Clone, Copy, Debug, PartialEq, Eq)]
pub struct PoolFull {
    /// The pages that are free.
    pub free: u32,
    /// The pages that the content needs.
    pub need: u32,
}
