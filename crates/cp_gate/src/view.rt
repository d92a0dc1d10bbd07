//! What a seat at the table knows. Proofs alone speak of it: no value of it is made.
use std::collections::LinkedList;

/// The number of a seat, and what that seat has seen of each place.
pub struct Identity<I> {
    pub number: u64,
    pub seen: LinkedList<LinkedList<I>>,
}

/// A view has the identity of its seat, and those that it has taken in. A note is what another seat had seen. The key is the gate's. The turns are counted for each place, and a seat is in one place at most.
pub struct View<K, I> {
    pub key: Option<K>,
    pub identities: LinkedList<Identity<I>>,
    pub notes: LinkedList<LinkedList<LinkedList<I>>>,
    pub turns: LinkedList<u64>,
    pub entered: Option<u64>,
}
