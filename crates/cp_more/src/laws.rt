//! A law over the definitions alone. It is the contract of a function with an empty body.
ghost use Rattle.cp_more.specs.GuiltLaws.{GuiltHasWitness};

/// No framing without the premise that the holder of the key alone signs. Take an honest store of
/// any key, its life, the list of what was signed in it, and any bytes. Where no two different
/// texts among those that the evidence presents and those of the life have one digest, and the
/// bytes convict the key all the same, one of the evidence's envelopes verifies and wasn't signed
/// in the life, and the witness that is computed of it is true: two different texts with one
/// digest, or a value of a one-time chain that the key hasn't shown.
pub fn guilt_has_witness()
    ensures { GuiltHasWitness }
{}
