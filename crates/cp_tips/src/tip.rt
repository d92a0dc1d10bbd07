//! How a block stands.
ghost use Rattle.std.specs.Prelude.{◌≡◌};
ghost use Rattle.cp_tips.specs.Tip.{fresh};
ghost use Rattle.cp_tips.specs.View.{tip_view};

use cp_bytes::genesis;

/// How a block stands after its latest entry (this project's own).
#[derive(Clone, Copy, Debug, PartialEq, Eq)]
pub struct Tip {
    /// The number of the block's entries, over its whole life.
    pub count: u64,
    /// The version of its latest put; 0 before the first.
    pub version: u64,
    /// SHA-256 of that version's content; 32 zero bytes before the first put.
    pub content: [u8; 32],
    /// The head of the block's chain after its latest entry.
    pub head: [u8; 32],
}

impl Tip {
    /// The tip of a block that was never written or read: no entry, version 0, 32 zero bytes and the
    /// head before its first entry.
    pub fn fresh(block: u64) -> Tip
        ensures { tip_view result ≡ fresh block }
    {
        Tip {
            count: 0,
            version: 0,
            content: [0; 32],
            head: genesis(block),
        }
    }
}
