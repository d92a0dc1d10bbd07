//! Laws over the definitions of evidence and of a store's life. Each is the contract of a function with
//! an empty body.
ghost use Rattle.cp_guilt.specs.Laws.{LivesUnframeable, NoRunIsFramed, Unframeable};

/// No framing. Take an honest store of any key, its life, and any bytes. Where each envelope of the
/// evidence that the bytes spell was signed in that life if it verifies (the holder of the key alone
/// signs), and no two different texts among those that the evidence presents and those of the life
/// have one digest (they are collision-free), the bytes don't convict that key.
pub fn unframeable()
    ensures { Unframeable }
{}

/// No framing over every interleaving: after every list of admissible events of the plain store, no
/// bytes convict its key, under the same two premises.
pub fn no_run_is_framed()
    ensures { NoRunIsFramed }
{}

/// No framing of any life under an operator's key (RFC 8554, section 6): where each certificate that
/// verifies under it is for the key of a life that was honest, the holder of that key alone signed the
/// evidence's envelopes and texts are collision-free, no bytes convict a certified life.
pub fn lives_unframeable()
    ensures { LivesUnframeable }
{}
