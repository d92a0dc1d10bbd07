//! Tests of what threads share, beside the crates that they try, since a crate with tests is proved twice.
#![tactic(auto)]

#[cfg(test)]
mod bulletin;
#[cfg(test)]
mod gate;
#[cfg(test)]
mod tickets;
