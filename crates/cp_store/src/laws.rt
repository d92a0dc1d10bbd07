//! The laws of stores that stand alike.
ghost use Rattle.cp_store.specs.Alike.{StepsAlike, RunsAlike};

/// Stores that stand alike answer each event alike and stand alike after it, and after every list of
/// events.
pub fn step_alike()
    ensures step { StepsAlike }
    ensures run { RunsAlike }
{}
