//! Tables to be measured.
use cp_tips::{Tip, build};
use std::alloc::Global;
use std::collections::BTreeMap;

/// A table of so many rows, for the blocks from 0 on, each with this count.
pub fn table_of(alloc: Global, rows: u32, count: u64) -> Option<Vec<u8>> {
    let mut tips = BTreeMap::new(alloc);
    for block in 0..rows {
        let fresh = Tip::fresh(u64::from(block));
        let tip = Tip { count, ..fresh };
        tips.insert(u64::from(block), tip).ok()?;
    }
    build(alloc, &tips).ok()
}
