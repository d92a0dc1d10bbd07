//! Evidence: what can convict a store, as bytes, and which bytes convict it.
#![tactic(auto)]

mod attested;
mod audit_laws;
mod before;
mod broken_rule;
mod closing_table;
mod evidence;
mod given;
mod laws;
mod layout;
mod lost;
mod store;
mod two;
mod went_back;
mod writers;

pub use attested::{head_fits, is_outside};
pub use audit_laws::{clean_exactly, gets_are_latest, guilt_convicts, written_convicts};
pub use before::{Before, SignedClosing};
pub use broken_rule::BrokenRule;
pub use closing_table::ClosingTable;
pub use cp_bytes::OutOfMemory;
pub use evidence::Evidence;
pub use given::Given;
pub use laws::texts_are_exact;
pub use lost::Lost;
pub use store::Store;
pub use two::Two;
pub use went_back::WentBack;
pub use writers::{
    write_k1, write_k2, write_k3, write_k4, write_k5, write_k6, write_k7, write_k8, write_k9,
    write_k10,
};
