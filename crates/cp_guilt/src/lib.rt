//! What evidence can't do: no bytes convict an honest store.
#![tactic(auto)]

mod audit_laws;
mod laws;

pub use audit_laws::{honest_is_clean, own_is_clean, own_is_given};
pub use laws::{lives_unframeable, no_run_is_framed, unframeable};
