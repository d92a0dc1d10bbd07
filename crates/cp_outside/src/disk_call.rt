//! The calls that a disk in memory keeps in its record.

/// A call of a disk that was made. The bytes of all writes stand one after another beside the calls.
#[derive(Clone, Copy)]
pub enum DiskCall {
    Read,
    /// The offset and the number of bytes.
    Write { at: u64, size: usize },
    Sync,
}
