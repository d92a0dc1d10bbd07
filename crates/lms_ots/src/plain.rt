//! The same calls with one chain after another: the plain bodies that those with four chains side by
//! side are compared with. Their contracts are the same.
pub use crate::signing::{ots_public, ots_sign};
pub use crate::verifying::ots_candidate;
