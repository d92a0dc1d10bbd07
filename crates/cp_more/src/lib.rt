//! The commands on an operator's lives and on forgeries, over any folder and sink: `certify`,
//! `judge-life` and `forgery`.
#![tactic(auto)]

mod calls;
mod certifying;
mod forging;
mod laws;
mod life_judging;
mod list;
mod seeds;
mod signed_pair;

pub use calls::{certify, forgery, judge_life};
pub use certifying::run_certify;
pub use forging::run_forgery;
pub use laws::guilt_has_witness;
pub use life_judging::run_judge_life;
pub use seeds::{SEED_LENGTH, part, workers};
