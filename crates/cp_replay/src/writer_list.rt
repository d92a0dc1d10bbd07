//! The families list of an epoch.
ghost use Rattle.std.specs.Prelude.{◌≡◌, IfOk, map, true};
ghost use Rattle.lms_tree.specs.PublicKey.{key_reads};
ghost use Rattle.cp_core.specs.Store.{SpellsFamilies};
ghost use Rattle.cp_families.specs.Families.{FamiliesFit, families_text};
ghost use Rattle.cp_replay.specs.Writers.{list_without, row_for, rows_for};

use crate::writer::Writer;
use crate::writers::{list_text, others, writers_of};
use crate::{OutOfMemory, Script};
use std::alloc::Global;
use std::marker::Model;

// The families list of an epoch of a replay, which has one key for all its writers. Contracts see
// its text.
#[derive(Drop)]
pub(crate) struct WriterList {
    /// The writers' key.
    pub key: [u8; 56],
    /// Who is in it, ascending.
    pub writers: Vec<Writer>,
    /// Its text.
    pub text: Vec<u8>,
}

impl Model for WriterList {
    ghost use Rattle.std.specs.Prelude.{List, ℕ, map};
    ghost use Rattle.cp_replay.specs.Writers.{IsListOf, row_for};

    ghost Value = { List ℕ };

    ghost view = { λ l. l.text.items };

    ghost invariant = { λ l. IsListOf l.text.items (map (row_for l.key) l.writers.items) };
}

impl WriterList {
    // The list of these writers.
    fn of(alloc: Global, key: [u8; 56], writers: Vec<Writer>) -> Result<WriterList, OutOfMemory>
        requires { FamiliesFit (map (row_for key) writers.items) }
        ensures { IfOk result (λ list. list ≡ families_text (map (row_for key) writers.items)) }
    {
        let text = list_text(alloc, writers.as_slice(), &key)?;
        Ok(WriterList { key, writers, text })
    }

    // The list that has this key for each client of a put line in the family of its block.
    #[tactic(auto, unfolding(crate::specs::Writers::rows_for))]
    pub(crate) fn of_script(
        alloc: Global,
        script: &Script,
        key: [u8; 56],
    ) -> Result<WriterList, OutOfMemory>
        requires { key_reads key ≡ true }
        ensures { IfOk result (λ list. list ≡ families_text (rows_for key script.now)) }
    {
        let writers = writers_of(alloc, script.lines())?;
        WriterList::of(alloc, key, writers)
    }

    // The list less all rows of the client.
    pub(crate) fn without(&self, alloc: Global, client: u32) -> Result<WriterList, OutOfMemory>
        ensures { IfOk result (λ list. list ≡ list_without client self.now) }
    {
        let writers = others(alloc, self.writers.as_slice(), client)?;
        WriterList::of(alloc, self.key, writers)
    }

    // A copy of its text.
    pub(crate) fn copy(&self, alloc: Global) -> Result<Vec<u8>, OutOfMemory>
        ensures text { IfOk result (λ text. text.items ≡ self.now) }
        ensures spells { SpellsFamilies self.now }
    {
        Vec::from_slice(alloc, self.text.as_slice())
    }
}
