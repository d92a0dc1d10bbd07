//! The blocks and the counts of a table's rows.
ghost use Rattle.std.specs.Prelude.{◌≡◌, ◌<◌, length, map, slice_index};

use crate::TableText;
use crate::rows::{block_of, count_of};

impl<'a> TableText<'a> {
    /// The number of its rows.
    pub fn count(&self) -> usize
        ensures { result ≡ length self.now }
    {
        self.rows().len()
    }

    /// The block of the row at `i`, counted from 0.
    pub fn block(&self, i: usize) -> u64
        requires { i < length self.now }
        ensures { result ≡ slice_index (map (λ r. r.block) self.now) i }
    {
        block_of(&self.rows()[i])
    }

    /// The count of the row at `i`, counted from 0: how many entries its block has.
    pub fn count_at(&self, i: usize) -> u64
        requires { i < length self.now }
        ensures { result ≡ slice_index (map (λ r. r.tip.count) self.now) i }
    {
        count_of(&self.rows()[i])
    }
}
