//! The laws on what the audit finds of an honest store.
ghost use Rattle.cp_guilt.specs.HonestAudit.{HonestIsClean};
ghost use Rattle.cp_guilt.specs.OwnAudit.{OwnIsClean, OwnIsGiven};

/// Given material of an honest store is clean, whoever hands it in and whatever is handed in with it.
/// Each given closing and each hand-in was signed in its life if it verifies (the holder of the key
/// alone signs), and no two different texts among those that the audit hashes and those of the life
/// have one digest (they are collision-free).
pub fn honest_is_clean()
    ensures { HonestIsClean }
{}

/// Where the given texts are the life's own (the families list of the epoch, the tables of its seals,
/// the log of its rows of the epoch), they are clean whatever digests do: that the holder of the key
/// alone signs is enough.
pub fn own_is_clean()
    ensures { OwnIsClean }
{}

/// The material of each seal of an honest life is given, with the life's own texts, whatever digests do:
/// what an honest store hands out is never refused as missing.
pub fn own_is_given()
    ensures { OwnIsGiven }
{}
