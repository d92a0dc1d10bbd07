//! A map with the same keys.
use std::alloc::Global;
use std::collections::BTreeMap;

/// A map from blocks to 48 bytes each.
#[derive(Drop)]
pub struct Yardstick {
    map: BTreeMap<u64, [u8; 48]>,
}

impl Yardstick {
    pub fn new(alloc: Global) -> Yardstick {
        Yardstick {
            map: BTreeMap::new(alloc),
        }
    }

    /// Looks the block up and inserts it. Whether it was there.
    pub fn turn(&mut self, block: u64, value: u8) -> Option<bool> {
        let found = self.map.get(&block).is_some();
        match self.map.insert(block, [value; 48]) {
            Ok(_old) => Some(found),
            Err(_full) => None,
        }
    }
}
