//! Folders of files.
ghost use Rattle.std.specs.Prelude.{◌≡◌, ◌≢◌, ◌≤◌, ◌+◌, ℕ, max, Bool, List, Some, Option, length, IfOk, OnOk, IsTrue};
ghost use Rattle.cp_outside.specs.Causes.{HasCause};

use crate::failures::Failed;

/// Why a folder gave no bytes of a file.
#[derive(Clone, Copy, Debug, PartialEq, Eq)]
pub enum FolderFault {
    /// There is no file of this name.
    Missing,
    /// The folder failed: its count of failed reads rose in the call.
    Failed,
}

/// A folder: a map from names to the bytes of files.
pub trait Folder {
    ghost use Rattle.cp_outside.specs.Folders.{HasFolderCause, ReadsAt};

    /// Whether the folder tells its files.
    ghost tells: { Self → Bool };

    /// The bytes of the file of a name, or `None` where there is no such file. It means something only
    /// where the folder tells its files.
    ghost file: { Self → List ℕ → Option (List ℕ) };

    /// How far into files reads have asked so far, in bytes from a file's front.
    ghost reach: { Self → ℕ };

    /// How many reads have failed so far.
    ghost read_faults: { Self → ℕ };

    /// How many writes have failed so far.
    ghost write_faults: { Self → ℕ };

    /// Moves the file's bytes from `at` on to the front of `into` and answers how many they are. 0 comes
    /// only at or behind the end of the file, or where `into` is empty. `Missing` comes exactly where the
    /// call does not fail and no file has this name. No file changes; where the call is refused, `into`
    /// may hold anything.
    fn read_at(&mut self, name: &str, at: u64, into: &mut [u8]) -> Result<usize, FolderFault>
        ensures bound { IfOk result (λ n. n ≤ length into.new) }
        ensures bytes { IsTrue (tells self.old) → ReadsAt (file self.old name.now) at into.new result }
        ensures cause { HasFolderCause (read_faults self.old) (read_faults self.new) result }
        ensures unwritten { write_faults self.new ≡ write_faults self.old }
        ensures reach { reach self.new ≤ max (reach self.old) (at + length into.old) }
        ensures tells { tells self.new ≡ tells self.old }
        ensures kept { (other : List ℕ) → file self.new other ≡ file self.old other };

    /// Makes the file of this name, or replaces it: it holds these bytes and no others. All other files
    /// stay. After `Failed` the file of this name may hold anything, or not be there.
    fn write(&mut self, name: &str, bytes: &[u8]) -> Result<(), Failed>
        ensures written { OnOk result (IsTrue (tells self.old) → file self.new name.now ≡ Some bytes.now) }
        ensures others { (other : List ℕ) → other ≢ name.now → file self.new other ≡ file self.old other }
        ensures cause { HasCause (write_faults self.old) (write_faults self.new) result }
        ensures unread { read_faults self.new ≡ read_faults self.old }
        ensures reach { reach self.new ≡ reach self.old }
        ensures tells { tells self.new ≡ tells self.old };
}
