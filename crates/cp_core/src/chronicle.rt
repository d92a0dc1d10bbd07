//! The life of a store.

use crate::{Seals, Shards};

/// The life of a store as plain data (this project's own).
#[derive(Drop)]
pub struct Chronicle {
    /// The items of the sixteen shards.
    pub shards: Shards,
    /// The seals of the closed epochs.
    pub seals: Seals,
}
