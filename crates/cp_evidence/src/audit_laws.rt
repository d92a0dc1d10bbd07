//! The laws on the audit: what its verdict means, and what its evidence is worth. Each is the contract
//! of a function with an empty body.
ghost use Rattle.cp_evidence.specs.AuditLaws.{CleanExactly, GetsAreLatest, GuiltConvicts, GuiltFits, GuiltIsGiven, GuiltIsHashed, GuiltIsShort, WrittenConvicts};

/// Of given material no guilt is found exactly where it is sound and each hand-in that verifies fits it.
pub fn clean_exactly()
    ensures { CleanExactly }
{}

/// What the audit finds convicts the store, whoever wrote the material. Each envelope of it is one of
/// the given closings or was handed in, and each text that its conditions hash is one that the audit
/// hashes.
pub fn guilt_convicts()
    ensures convicts { GuiltConvicts }
    ensures is_given { GuiltIsGiven }
    ensures is_hashed { GuiltIsHashed }
{}

/// The bytes of what the audit finds convict, where it has a spelling. It has one where its tables and
/// its families list have fewer than 2^32 bytes each. They are at most 64 more than twice those of the
/// closings and the hand-ins, and those of both tables, the families list and the log, together.
pub fn written_convicts()
    ensures convicts { WrittenConvicts }
    ensures fits { GuiltFits }
    ensures is_short { GuiltIsShort }
{}

/// In a clean epoch each get of the epoch whose attestation was handed in returned the latest put before
/// it. No premise on digests is needed.
pub fn gets_are_latest()
    ensures { GetsAreLatest }
{}
