//! What a text says.
use std::collections::LinkedList;

/// The bytes of the four parts of a text. Contracts alone speak of it: no value of it is made.
pub struct Contents {
    pub closing: LinkedList<u8>,
    pub table: LinkedList<u8>,
    pub log: LinkedList<u8>,
    pub families: LinkedList<u8>,
}
