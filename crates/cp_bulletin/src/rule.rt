//! The rule of what is published, and what a step on it tells.
use crate::contents::Contents;
use crate::published::Published;
use crossbeam_utils::rule::{Outcome, Protocol};
use std::collections::LinkedList;

/// The texts that a thread has seen. Proofs alone speak of it: no value of it is made.
pub struct View {
    pub seen: LinkedList<Contents>,
}

/// The published texts start with what each thread has seen.
pub struct SeenIsPublished;

impl Protocol<Published, View> for SeenIsPublished {
    ghost use Rattle.std.specs.Prelude.{[]};
    ghost use Rattle.cp_bulletin.specs.Texts.{texts_of};
    ghost use Rattle.cp_bulletin.specs.Rule.{Keeps, seeing};

    ghost holds = { Keeps (λ s. texts_of s.texts.items) };

    ghost first = { seeing [] };
}

/// A thread reads or publishes, and has then seen all that is published.
pub struct See;

impl Outcome<Published, View> for See {
    ghost use Rattle.cp_bulletin.specs.Texts.{texts_of};
    ghost use Rattle.cp_bulletin.specs.Rule.{HasSeen};

    ghost then = { HasSeen (λ s. texts_of s.texts.items) };
}
