//! Tests of an operator's key and of forgeries, beside the crates that they try, since a crate with
//! tests is proved twice: rows worked out outside, with ample memory.
#![tactic(auto)]

#[cfg(test)]
mod forgeries;
#[cfg(test)]
mod lives;
