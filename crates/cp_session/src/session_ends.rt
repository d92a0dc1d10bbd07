//! Why a session broke off.

/// Why a session broke off before the clean end of its input and before its last response.
#[derive(Clone, Copy, Debug, PartialEq, Eq)]
pub enum SessionEnd {
    /// The input ended inside a request; `taken` is the number of bytes that were read in this call.
    Truncated { taken: u64 },
    /// A read failed. All whole requests have their responses.
    ReadFault,
    /// A write failed. All responses before the last were written whole, and of the last a part; the
    /// desk got no request behind it.
    WriteFault,
    /// There was no memory to begin with: nothing was read or written.
    OutOfMemory,
}
