//! Two writes, one of which is on the disk for good before the other begins.
ghost use Rattle.std.specs.Prelude.{◌≡◌, ◌⊎◌, ◌≤◌, OnOk, IsTrue};
ghost use Rattle.cp_outside.specs.Causes.{HasCause};
ghost use Rattle.cp_outside.specs.Disks.{overwritten, IsTorn, Only, LeavesOnly};

use cp_outside::{Disk, Failed};

// Writes the first bytes, and the second ones only once the first are on the disk for good.
pub(crate) fn write_in_order<K: Disk>(
    disk: &mut K,
    first_at: u64,
    first: &[u8],
    second_at: u64,
    second: &[u8],
) -> Result<(), Failed>
    ensures file { IsTrue (K.tells disk.old) → OnOk result
        (K.seen disk.new ≡ overwritten (overwritten (K.seen disk.old) first_at first.now) second_at second.now) }
    ensures durable { IsTrue (K.tells disk.old) → OnOk result (Only (K.seen disk.new) (K.images disk.new (K.moment disk.new))) }
    ensures any_moment { IsTrue (K.tells disk.old) → Only (K.seen disk.old) (K.images disk.old (K.moment disk.old))
        → LeavesOnly K.moment K.images disk.old disk.new (λ image. IsTorn first_at first.now (K.seen disk.old) image
        ⊎ IsTorn second_at second.now (overwritten (K.seen disk.old) first_at first.now) image) }
    ensures later { IsTrue (K.tells disk.old) → K.moment disk.old ≤ K.moment disk.new }
    ensures tells { K.tells disk.new ≡ K.tells disk.old }
    ensures cause { HasCause (K.faults disk.old) (K.faults disk.new) result }
{
    disk.write_at(first_at, first)?;
    disk.sync()?;
    disk.write_at(second_at, second)?;
    Ok(disk.sync()?)
}
