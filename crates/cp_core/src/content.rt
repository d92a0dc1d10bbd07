//! The contents that were put.
ghost use Rattle.std.specs.Prelude.{◌≡◌, cond, nat_eq};
ghost use Rattle.cp_core.specs.Calls.{content_at};

use cp_bytes::Bytes;

/// A block's content, as a put brought it (this project's own).
#[derive(Debug, Drop)]
pub struct Content {
    /// The block.
    pub block: u64,
    /// The content's bytes.
    pub bytes: Bytes,
}

/// The content, where it is the block's, or else the one that was found before.
fn newer<'a>(block: u64, found: &'a [u8], content: &'a Content) -> &'a [u8]
    ensures { result.now ≡ cond (nat_eq content.now.block block) content.now.bytes found.now }
{
    if content.block == block {
        content.bytes.as_slice()
    } else {
        found
    }
}

/// The latest content of the block, which is empty where none was put.
pub(crate) fn content_at(contents: &[Content], block: u64) -> &[u8]
    ensures { result.now ≡ content_at contents.now block }
{
    let mut found: &[u8] = &[];
    for content in contents {
        found = newer(block, found, content);
    }
    found
}
