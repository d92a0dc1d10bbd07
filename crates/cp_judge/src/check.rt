//! One condition.
ghost use Rattle.std.specs.Prelude.{◌≡◌, true, OnOk};
ghost use Rattle.cp_evidence.specs.Conditions.{check};

// Condition `number` holds, or is the one that fails.
pub(crate) fn check(number: u8, holds: bool) -> Result<(), u8>
    ensures value { result ≡ check number holds }
    ensures holds { OnOk result (holds ≡ true) }
{
    if holds { Ok(()) } else { Err(number) }
}
