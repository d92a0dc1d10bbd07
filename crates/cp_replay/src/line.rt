//! One line of a script.

use cp_bytes::Bytes;

/// One line of a script (this project's own).
#[derive(Debug, Drop)]
pub enum Line {
    /// A client puts a content into a block as this version.
    Put {
        client: u32,
        block: u64,
        nonce: u64,
        version: u64,
        /// 1 to 65,536 printable ASCII characters without space.
        content: Bytes,
    },
    /// A client gets a block's content.
    Get {
        client: u32,
        block: u64,
        nonce: u64,
    },
    /// The current epoch is closed, and the next one has its families list.
    Close,
    /// The current epoch is closed, and the next one has its families list less all rows of the
    /// client.
    CloseWithout {
        client: u32,
    },
    /// The calls after it name this epoch, at least 1, until the next closing.
    At {
        epoch: u64,
    },
}
