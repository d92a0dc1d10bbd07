//! The audit of an epoch: clean, or evidence that convicts.
#![tactic(auto)]

mod alone;
mod auditing;
mod beside;
mod by_log;
mod by_tables;
mod clash;
mod closings;
mod counts;
mod fault;
mod frames;
mod given;
mod given_log;
mod guilt;
mod hand_ins;
mod log;
mod lookup;
mod lost;
mod material;
mod part;
mod refusal;
mod tables;
mod taking;
mod verdict;
mod walk;
mod what;

pub use auditing::audit;
pub use material::Material;
pub use refusal::AuditRefusal;
pub use verdict::Verdict;
pub use what::What;
