//! The files of an epoch's material.
ghost use Rattle.std.specs.Prelude.{◌≡◌, IfOk, string_bytes};
ghost use Rattle.cp_endings.specs.EpochFiles.{epoch_file, part_label};

use itoa::Buffer;
use std::alloc::{AllocError, Global};

/// Which part of an epoch's material a file has. Its name is that of the part, `-`, and the epoch's
/// decimal number.
#[derive(Clone, Copy, Debug, PartialEq, Eq)]
pub enum EpochPart {
    /// `families`: the families list.
    Families,
    /// `closing`: the envelope of the closing.
    Closing,
    /// `table`: the table that the closing names.
    Table,
    /// `log`: the log.
    Log,
}

impl EpochPart {
    // What stands before the epoch in the file's name.
    fn label(&self) -> &'static str
        ensures { result.now ≡ part_label self.now }
    {
        match self {
            EpochPart::Families => "families-",
            EpochPart::Closing => "closing-",
            EpochPart::Table => "table-",
            EpochPart::Log => "log-",
        }
    }

    /// The name of the file of this part of the epoch's material, as `closing-7`; an error at want
    /// of memory alone.
    pub fn name(&self, alloc: Global, epoch: u64) -> Result<String, AllocError>
        ensures { IfOk result (λ name. string_bytes name ≡ epoch_file self.now epoch) }
    {
        let mut number = Buffer::new();
        let mut name = String::from_str(alloc, self.label())?;
        name.push_str(number.format(epoch))?;
        Ok(name)
    }
}
