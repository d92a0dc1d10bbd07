//! The refusal of a new gate.
use crate::stands_for::StandsFor;

/// There was no memory for a gate. The key and the values come back.
#[derive(Drop)]
pub struct Refused<T: StandsFor> {
    pub key: T::Key,
    pub values: Vec<T>,
}
