//! Reading a command's input files.
ghost use Rattle.std.specs.Prelude.{◌≡◌, ℕ, List};
ghost use Rattle.cp_endings.specs.Inputs.{ReadsFrom};

use crate::ending::Ending;
use cp_outside::{Folder, ReadWhole, read_whole};
use std::alloc::Global;

/// The bytes of an input file of at most `limit` bytes, or how the command ends without them:
/// `Missing`, `TooLong`, `Fault` only where the count of failed reads rose, or `NoMemory`. No file
/// changes.
pub fn input<'a, F: Folder>(
    alloc: Global,
    files: &mut F,
    name: &'a str,
    limit: u64,
) -> Result<Vec<u8>, Ending<'a>>
    ensures reads { ReadsFrom F.Folder files.old files.new name.entry.now limit result }
    ensures tells { F.tells files.new ≡ F.tells files.old }
    ensures unwritten { F.write_faults files.new ≡ F.write_faults files.old }
    ensures kept { (other : List ℕ) → F.file files.new other ≡ F.file files.old other }
{
    match read_whole(alloc, files, name, limit) {
        Ok(bytes) => Ok(bytes),
        Err(ReadWhole::Missing) => Err(Ending::Missing { name }),
        Err(ReadWhole::TooLong { .. }) => Err(Ending::TooLong { limit }),
        Err(ReadWhole::Failed) => Err(Ending::Fault),
        Err(ReadWhole::OutOfMemory) => Err(Ending::NoMemory),
    }
}
