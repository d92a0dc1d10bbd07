//! LMS signatures over SHA-256 (RFC 8554, section 5): public keys, verifying for the heights 5 to 25,
//! and private keys of the heights 5, 10 and 15 with all nodes of their tree.
#![tactic(auto)]

mod fields;
mod filling;
mod height;
mod key_fault;
mod laws;
mod lms_type;
mod nodes;
mod private_key;
mod public_key;
mod signing;
mod verifying;

pub use cp_bytes::OutOfMemory;
pub use height::Height;
pub use key_fault::KeyFault;
pub use laws::{
    public_reads, short_never_verifies, test_is_the_statement, tree_is_the_standards,
    what_is_signed_verifies,
};
pub use nodes::{D_INTR, D_LEAF, inner_node, leaf_node};
pub use private_key::PrivateKey;
pub use public_key::PublicKey;
pub use verifying::verify;
