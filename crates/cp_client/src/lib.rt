//! The client: what a writer and a reader ask a store, and the check of what the store answered.
#![tactic(auto)]

mod accepted;
mod accepting;
mod asked;
mod asking;
mod comparing;
mod field;
mod head;
mod laws;
mod refusals;

pub use accepted::Accepted;
pub use accepting::accept;
pub use asked::{Asked, AskedPut};
pub use asking::ask_put;
pub use field::Field;
pub use laws::{asked_is_exact, served_is_latest};
pub use refusals::{AskRefusal, ClientRefusal};
