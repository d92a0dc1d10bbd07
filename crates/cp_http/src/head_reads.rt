//! What stands where a head is due.
use crate::heads::Head;

/// What stands at the front of the bytes where the head of a request is due.
#[derive(Clone, Copy, Debug)]
pub enum HeadRead<'a> {
    /// A head, and the number of its bytes with the `\r\n\r\n` that ends it.
    Whole { head: Head<'a>, length: u64 },
    /// Fewer than 16,384 bytes, which hold no end of a head.
    Partial,
    /// Bytes that end as a head does and are none that this profile takes.
    BadHead,
    /// 16,384 bytes that hold no end of a head.
    HeadTooLong,
}
