//! Reading three input files, one after another.
ghost use Rattle.std.specs.Prelude.{◌≡◌, ℕ, List};
ghost use Rattle.cp_endings.specs.ThreeInputs.{ReadsThreeOf};
ghost use Rattle.cp_endings.specs.Folders.{files_of};

use crate::ending::Ending;
use crate::inputs::input;
use cp_outside::Folder;
use std::alloc::Global;

/// An input file: its name, and the most bytes that it may have.
#[derive(Clone, Copy)]
pub struct Input<'a> {
    /// The name.
    pub name: &'a str,
    /// The most bytes.
    pub limit: u64,
}

/// The bytes of three input files.
#[derive(Drop)]
pub struct ThreeFiles {
    /// The bytes of the first.
    pub first: Vec<u8>,
    /// The bytes of the second.
    pub second: Vec<u8>,
    /// The bytes of the third.
    pub third: Vec<u8>,
}

/// The bytes of three files, which are read in this order, or how the command ends at the first
/// that is refused. No file changes.
pub fn three_inputs<'a, F: Folder>(
    alloc: Global,
    files: &mut F,
    first: Input<'a>,
    second: Input<'a>,
    third: Input<'a>,
) -> Result<ThreeFiles, Ending<'a>>
    ensures reads { ReadsThreeOf first.entry second.entry third.entry
        (files_of F.Folder files.old)
        (files_of F.Folder files.new) result }
    ensures tells { F.tells files.new ≡ F.tells files.old }
    ensures unwritten { F.write_faults files.new ≡ F.write_faults files.old }
    ensures kept { (other : List ℕ) → F.file files.new other ≡ F.file files.old other }
{
    let first = match input(alloc, files, first.name, first.limit) {
        Ok(first) => first,
        Err(ending) => return Err(ending),
    };
    let second = match input(alloc, files, second.name, second.limit) {
        Ok(second) => second,
        Err(ending) => return Err(ending),
    };
    let third = match input(alloc, files, third.name, third.limit) {
        Ok(third) => third,
        Err(ending) => return Err(ending),
    };
    Ok(ThreeFiles {
        first,
        second,
        third,
    })
}
