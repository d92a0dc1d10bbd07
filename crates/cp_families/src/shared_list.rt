//! A families list's text that many hold at once.
ghost use Rattle.std.specs.Prelude.{◌≡◌, Ok, IfOk, IsOk};
ghost use Rattle.cp_families.specs.Families.{families_of};

use crate::{Families, ListText};
use std::alloc::{AllocError, Global};
use std::marker::Model;
use std::sync::Arc;

/// A families list's text that many hold at once, each by a share of it. Contracts see its bytes, so
/// two shares of one text are equal, and so are two texts of the same bytes.
#[derive(Drop)]
pub struct SharedList {
    list: Arc<ListText>,
}

impl Model for SharedList {
    ghost use Rattle.std.specs.Prelude.{ℕ, List};
    ghost use Rattle.std.specs.Arc.{arc_value};

    ghost Value = { List ℕ };

    ghost view = { λ s. arc_value s.list };
}

impl SharedList {
    /// The first share of the text.
    pub fn new(alloc: Global, list: ListText) -> Result<SharedList, AllocError>
        ensures { IfOk result (λ shared. shared ≡ list) }
    {
        Ok(SharedList {
            list: Arc::new(alloc, list)?,
        })
    }

    /// One more share of it.
    pub fn share(&self) -> Result<SharedList, AllocError>
        ensures { IfOk result (λ shared. shared ≡ self.now) }
    {
        Ok(SharedList {
            list: Arc::try_clone(&self.list)?,
        })
    }

    /// The bytes.
    pub fn as_slice(&self) -> &[u8]
        ensures bytes { result.now ≡ self.now }
        ensures reads { IsOk (families_of self.now) }
    {
        self.list.as_slice()
    }

    /// The list that they spell, which isn't read anew. It takes no memory.
    pub fn families(&self) -> Families<'_>
        ensures { families_of self.now ≡ Ok result }
    {
        self.list.families()
    }
}
