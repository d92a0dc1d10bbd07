//! The closings of a store.
ghost use Rattle.std.specs.Prelude.{◌≡◌, ◌++◌, ◌∷◌, [], OnOk, OnErr};

use crate::{OutOfMemory, SealItem};
use std::alloc::Global;
use std::marker::Model;

/// The seals of a store, oldest first, which contracts see as a list.
#[derive(Debug, Drop)]
pub struct Seals {
    seals: Vec<SealItem>,
}

impl Model for Seals {
    ghost use Rattle.std.specs.Prelude.{List};
    ghost use Rattle.cp_core.specs.declared.seal_item.SealItem.{SealItem};

    ghost Value = { List SealItem };

    ghost view = { λ a. a.seals.items };
}

impl Seals {
    /// No seal.
    pub fn new(alloc: Global) -> Seals
        ensures { result ≡ [] }
    {
        Seals {
            seals: Vec::new(alloc),
        }
    }

    /// Takes over the vector. It takes no memory.
    pub fn from_vec(seals: Vec<SealItem>) -> Seals
        ensures { result ≡ seals.items }
    {
        Seals { seals }
    }

    /// The seals.
    pub fn as_slice(&self) -> &[SealItem]
        ensures { result.now ≡ self.now }
    {
        self.seals.as_slice()
    }

    /// Gives the vector back. It takes no memory.
    pub fn into_vec(self) -> Vec<SealItem>
        ensures { result.items ≡ self }
    {
        self.seals
    }

    /// Appends a seal. Where memory is wanted, the seals stay as they were.
    pub fn push(&mut self, seal: SealItem) -> Result<(), OutOfMemory>
        ensures pushed { OnOk result (self.new ≡ self.old ++ seal ∷ []) }
        ensures unchanged { OnErr result (self.new ≡ self.old) }
    {
        self.seals.push(seal)?;
        Ok(())
    }
}
