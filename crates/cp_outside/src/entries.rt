//! Where a write's parts lie.

// Where the name and the content of a write lie among the bytes of a log: the name from `start` to
// `middle`, the content from there to `end`.
#[derive(Clone, Copy)]
pub(crate) struct Entry {
    pub(crate) start: usize,
    pub(crate) middle: usize,
    pub(crate) end: usize,
}
