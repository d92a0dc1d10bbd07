//! Families lists: which client's key may write which family of blocks, and the check that a put is
//! signed by such a writer.
#![tactic(auto)]

mod families;
pub mod laws;
mod list_text;
mod lists;
mod put_fault;
mod row;
mod shared_list;
mod verified_put;
mod verifying;

pub use families::{Families, family_of};
pub use list_text::ListText;
pub use put_fault::PutFault;
pub use shared_list::SharedList;
pub use verified_put::VerifiedPut;
pub use verifying::verify_put;
