//! No leaf is handed out twice.
ghost use Rattle.key_vault.specs.Runs.{RangesAreDisjoint};

use cp_outside::Disk;

/// Over every list of openings, formattings and reservations of one key on one disk, each of which
/// may fail or be cut short by a crash, the ranges that were handed out have no leaf in common, all
/// their leaves are below the key's number of leaves, and whatever a crash leaves of the disk in the
/// end has them reserved. Nothing but this crate writes the disk.
pub fn ranges_are_disjoint<K: Disk>()
    ensures { RangesAreDisjoint K.Disk }
{}
