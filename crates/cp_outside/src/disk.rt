//! Disks, and what a crash may leave of them.
ghost use Rattle.std.specs.Prelude.{◌≡◌, ◌⊎◌, ◌≤◌, ℕ, Bool, List, length, Result, IfOk, OnOk, OnErr, IsTrue};
ghost use Rattle.cp_outside.specs.Causes.{HasCause};
ghost use Rattle.cp_outside.specs.Disks.{overwritten, IsTorn, ReadsThere, Follows, Only, Among, Elapses};

use crate::failures::Failed;

/// A disk: one file of bytes at offsets from 0, part of which a crash may lose.
///
/// Between two syncs each written range and the part past the old end may hold any bytes after a
/// crash, and the end may lie anywhere between the old and the new one; bytes outside stay. After a
/// sync that succeeds a crash leaves what a read gives. The clock never goes back, and moves on with
/// each call that succeeds; for each of its moments the disk tells the images that a crash since then
/// may have left, in the middle of a call or between two.
pub trait Disk {
    /// Whether the disk tells its bytes and images. One that does not promises its count of faults
    /// alone.
    ghost tells: { Self → Bool };

    /// The bytes that a read gives.
    ghost seen: { Self → List ℕ };

    /// The clock.
    ghost moment: { Self → ℕ };

    /// The images that a crash since a moment may have left.
    ghost images: { Self → ℕ → List ℕ → Type 0 };

    /// How often the disk has failed.
    ghost faults: { Self → ℕ };

    /// Reads from the offset `at` on, as much as there is, into the front of `into`, and answers how
    /// many bytes they are: fewer than `into` holds only at the end.
    fn read(&mut self, at: u64, into: &mut [u8]) -> Result<usize, Failed>
        ensures bound { IfOk result (λ n. n ≤ length into.new) }
        ensures bytes { IsTrue (tells self.old) → ReadsThere (seen self.old) at into.new result }
        ensures seen { IsTrue (tells self.old) → seen self.new ≡ seen self.old }
        ensures crash { IsTrue (tells self.old)
            → Among (images self.old (moment self.old)) (images self.new (moment self.new)) }
        ensures time { IsTrue (tells self.old)
            → Elapses (moment self.old) (moment self.new) (images self.old) (images self.new) result }
        ensures tells { tells self.new ≡ tells self.old }
        ensures cause { HasCause (faults self.old) (faults self.new) result };

    /// Writes at the offset `at`, over what is there and past the end, with zeros between the old end
    /// and a range that begins past it. A write that failed may have been made in part.
    fn write_at(&mut self, at: u64, bytes: &[u8]) -> Result<(), Failed>
        ensures written { IsTrue (tells self.old)
            → OnOk result (seen self.new ≡ overwritten (seen self.old) at bytes.now) }
        ensures in_part { IsTrue (tells self.old)
            → OnErr result (IsTorn at bytes.now (seen self.old) (seen self.new)) }
        ensures crash { IsTrue (tells self.old)
            → Follows (IsTorn at bytes.now) (images self.old (moment self.old)) (images self.new (moment self.new)) }
        ensures time { IsTrue (tells self.old)
            → Elapses (moment self.old) (moment self.new) (images self.old) (images self.new) result }
        ensures tells { tells self.new ≡ tells self.old }
        ensures cause { HasCause (faults self.old) (faults self.new) result };

    /// Puts all that was written on the disk: after it a crash leaves what a read gives.
    fn sync(&mut self) -> Result<(), Failed>
        ensures durable { IsTrue (tells self.old)
            → OnOk result (Only (seen self.old) (images self.new (moment self.new))) }
        ensures seen { IsTrue (tells self.old) → seen self.new ≡ seen self.old }
        ensures crash { IsTrue (tells self.old)
            → Among (images self.old (moment self.old)) (images self.new (moment self.new)) }
        ensures time { IsTrue (tells self.old)
            → Elapses (moment self.old) (moment self.new) (images self.old) (images self.new) result }
        ensures tells { tells self.new ≡ tells self.old }
        ensures cause { HasCause (faults self.old) (faults self.new) result };

    /// What a read gives now is one of the images.
    ghost seen_is_image: { (disk : Self) → IsTrue (tells disk) → images disk (moment disk) (seen disk) };

    /// This moment is one of those since an earlier one.
    ghost counts_now: { (disk : Self) (t : ℕ) (image : List ℕ) → IsTrue (tells disk) → t ≤ moment disk
        → images disk (moment disk) image → images disk t image };
}
