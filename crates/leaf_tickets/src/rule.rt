//! The rule of the counter, and what each step on it tells.
use crate::view::View;
use atomic_table::{Join, Play, Split, TableRule};

/// Where the counter begins, and how many seats it has.
#[derive(Clone, Copy)]
pub struct About {
    pub start: u64,
    pub seats: u64,
}

/// The seats have drawn the numbers below the counter, each once.
pub struct EachOnce;

impl TableRule<(), View, About> for EachOnce {
    ghost use Rattle.std.specs.Prelude.{[]};
    ghost use Rattle.leaf_tickets.specs.Rule.{DrawnOnce, view};

    ghost holds = { λ about. DrawnOnce about.start about.seats };

    ghost first = { λ about. view about.seats [] about.start };
}

/// The seat finds the counter.
pub struct Look;

impl Play<(), View> for Look {
    ghost use Rattle.leaf_tickets.specs.Rule.{Looked};

    ghost then = { Looked };
}

/// The seat draws the number that it expects, where it is the next.
pub struct Draw;

impl Play<(), View> for Draw {
    ghost use Rattle.leaf_tickets.specs.Rule.{Drew};

    ghost then = { Drew };
}

/// A newcomer has drawn nothing, and has no part of the right to close.
pub struct Arrive;

impl Play<(), View> for Arrive {
    ghost use Rattle.leaf_tickets.specs.Rule.{Arrived};

    ghost then = { Arrived };
}

/// A new seat gets one part of the first seat's.
pub struct Deal;

impl Split<View> for Deal {
    ghost use Rattle.std.specs.Prelude.{◌-◌, []};
    ghost use Rattle.leaf_tickets.specs.Rule.{view};

    ghost left = { λ v. view (v.parts - 1) v.drawn v.found };

    ghost right = { λ v. view 1 [] v.found };
}

/// One seat takes in all that another has.
pub struct Gather;

impl Join<View> for Gather {
    ghost use Rattle.std.specs.Prelude.{◌+◌, ◌++◌, [], max};
    ghost use Rattle.leaf_tickets.specs.Rule.{view, newcomer};

    ghost both = { λ v w. view (v.parts + w.parts) (v.drawn ++ w.drawn) (max v.found w.found) };

    ghost spent = { newcomer };
}
