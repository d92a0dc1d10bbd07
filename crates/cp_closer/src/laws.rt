//! The laws of the closer.
ghost use Rattle.cp_closer.specs.Laws.{BeginsAlike, OpensAlike, PartsFit, PublishesAlike, SealsAlike, SealsTheLife, StaysAlike, TakesAlike};

/// Where the parts that were taken are those of a life whose items stand rightly, the seal is the life's
/// seal, and the log has the life's entries of the epoch.
pub fn seals_the_life()
    ensures { SealsTheLife }
{}

/// A closer of a life stays one: each of its calls follows the store's step.
pub fn follows_the_life()
    ensures opens { OpensAlike }
    ensures begins { BeginsAlike }
    ensures takes { TakesAlike }
    ensures seals { SealsAlike }
    ensures publishes { PublishesAlike }
    ensures stays { StaysAlike }
{}

/// A closer of a life can take the part that the next shard hands over.
pub fn parts_fit()
    ensures { PartsFit }
{}
