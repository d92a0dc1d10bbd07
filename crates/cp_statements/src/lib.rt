//! The texts that the store, its writers and its clients sign, hash and exchange: read, written, and
//! the laws that tie both.
#![tactic(auto)]

pub mod attestation;
pub mod close_order;
pub mod close_order2;
pub mod closing;
pub mod entry;
pub mod envelope;
pub mod field;
pub mod get_request;
pub mod kind;
pub mod laws;
pub mod malformed;
mod pieces;
pub mod put_request;

pub use attestation::Attestation;
pub use close_order::CloseOrder;
pub use close_order2::CloseOrder2;
pub use closing::Closing;
pub use cp_bytes::OutOfMemory;
pub use entry::Entry;
pub use envelope::Envelope;
pub use field::{take_epoch, take_tag};
pub use get_request::GetRequest;
pub use kind::Kind;
pub use malformed::Malformed;
pub use put_request::PutRequest;
