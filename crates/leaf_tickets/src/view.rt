//! What a seat knows.
use std::collections::LinkedList;

/// The seat's parts of the right to close, the numbers that it has drawn, and the counter that it
/// found last. Proofs alone speak of it: no value of it is made.
pub struct View {
    pub parts: u64,
    pub drawn: LinkedList<u64>,
    pub found: u64,
}
