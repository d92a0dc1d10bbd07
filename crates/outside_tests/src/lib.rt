//! Tests of the outside: streams, folders, disks, the vault and HTTP, beside the crates that they try, since a crate with tests is proved twice.
#![tactic(auto)]

#[cfg(test)]
mod disks;
#[cfg(test)]
mod http;
#[cfg(test)]
mod streams;
#[cfg(test)]
mod vault;
