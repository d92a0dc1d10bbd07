//! The judge: evidence is decided from its bytes and the store's key alone.
#![tactic(auto)]

mod check;
mod closings;
mod envelopes;
mod framed;
mod judgement;
mod judging;
mod lives;
mod tables;

pub use judgement::Judgement;
pub use judging::judge;
pub use lives::{LifeJudgement, judge_life};
