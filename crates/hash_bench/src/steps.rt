//! Chains of 255 steps: chain 3 of the leaves 0, 1, .. from one value, the ends joined by exclusive or.
use crate::task::ID;
use lms_ots::tagged;
use sha2::{Digest, Sha256};
use sha256_lanes::digests_of_55;

// The text of a step of chain 3 of a leaf, with zeros in place of the step's number and the value.
fn message_of(leaf: u32) -> [u8; 55] {
    let mut message = [0; 55];
    message[..22].copy_from_slice(&tagged(&ID, leaf, 3));
    message
}

fn put_step(message: &mut [u8; 55], step: u8, value: &[u8; 32]) {
    message[22] = step;
    message[23..].copy_from_slice(value);
}

fn end_of(leaf: u32) -> [u8; 32] {
    let mut message = message_of(leaf);
    let mut value = [1; 32];
    for step in 0..255 {
        put_step(&mut message, step, &value);
        value = Sha256::digest(&message);
    }
    value
}

fn join(all: &mut [u8; 32], end: &[u8; 32]) {
    for i in 0..32 {
        all[i] ^= end[i];
    }
}

/// So many chains, one after another.
pub fn ends_one_by_one(chains: u32) -> [u8; 32] {
    let mut all = [0; 32];
    for leaf in 0..chains {
        let end = end_of(leaf);
        join(&mut all, &end);
    }
    all
}

// The chains of four leaves from this one on, side by side.
fn four_ends(leaf: u32) -> [[u8; 32]; 4] {
    let mut messages = [
        message_of(leaf),
        message_of(leaf.wrapping_add(1)),
        message_of(leaf.wrapping_add(2)),
        message_of(leaf.wrapping_add(3)),
    ];
    let mut values = [[1; 32]; 4];
    for step in 0..255 {
        put_step(&mut messages[0], step, &values[0]);
        put_step(&mut messages[1], step, &values[1]);
        put_step(&mut messages[2], step, &values[2]);
        put_step(&mut messages[3], step, &values[3]);
        let next = digests_of_55(&messages);
        values = next;
    }
    values
}

/// Four times so many chains, four side by side.
pub fn ends_by_lanes(fours: u32) -> [u8; 32] {
    let mut all = [0; 32];
    for four in 0..fours {
        for end in four_ends(four.wrapping_mul(4)) {
            join(&mut all, &end);
        }
    }
    all
}
