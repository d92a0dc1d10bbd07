ghost use Rattle.std.specs.Prelude.{◌≡◌, ◌↔◌, IsTrue};

use std::marker::Model;

/// The pages that one content has in a pool. A run cannot be copied, and it ends only
/// in the call that gives its pages back.
#[derive(Drop)]
pub struct Run {
    /// The page where the content begins, 0 where the content is empty.
    pub(crate) first: u32,
    /// The content's length in bytes.
    pub(crate) len: usize,
}

// Clauses see the first page and the length.
impl Model for Run {
    ghost use Rattle.cp_pages.specs.Extent.{Extent};

    ghost Value = { Extent };

    ghost view = { λ run. record { first = run.first; len = run.len } };
}

impl Run {
    /// The length of the content in bytes.
    pub fn len(&self) -> usize
        ensures { result ≡ self.now.len }
    {
        self.len
    }

    /// Whether the content is empty. An empty content takes no page.
    pub fn is_empty(&self) -> bool
        ensures { IsTrue result ↔ (self.now.len ≡ 0) }
    {
        self.len == 0
    }
}
