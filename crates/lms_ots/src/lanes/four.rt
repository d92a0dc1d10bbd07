//! Some steps of four chains, side by side.
ghost use Rattle.std.specs.Prelude.{◌≡◌, ℕ, ◌+◌, ◌<◌, ◌≤◌, ◌++◌, ◌∷◌, [], List, length, take, slice_index, slice_index_or};
ghost use Rattle.lms_ots.specs.Ots.{steps, tagged};

use crate::chains::{put_step, step_message};
use sha256_lanes::digests_of_55;

// The texts of a step of four chains, with zeros in place of the step's number and the value.
fn step_messages(id: &[u8; 16], q: u32, chains: &[u16; 4]) -> [[u8; 55]; 4]
    ensures { (j : ℕ) → j < 4 → take 22 (slice_index_or result j []) ≡ tagged id.now q (slice_index chains.now j) }
{
    [
        step_message(id, q, chains[0]),
        step_message(id, q, chains[1]),
        step_message(id, q, chains[2]),
        step_message(id, q, chains[3]),
    ]
}

// Writes the number of each chain's step `k`, counted from its first, and its value.
fn put_steps(messages: &mut [[u8; 55]; 4], first: &[u8; 4], k: u8, values: &[[u8; 32]; 4])
    requires { (j : ℕ) → j < 4 → slice_index first.now j + k < 256 }
    ensures { (j : ℕ) → j < 4 → slice_index_or messages.new j [] ≡ take 22 (slice_index_or messages.old j []) ++ ((slice_index first.now j + k) ∷ slice_index_or values.now j []) }
{
    'lanes: for j in 0..4 {
        let mut message = messages[j];
        put_step(&mut message, first[j] + k, &values[j]);
        messages[j] = message;
    }
}

// Four chains whose texts are given, each `count` steps on from its value `start` and its step
// `first`.
pub(crate) fn steps_of_texts(
    texts: &[[u8; 55]; 4],
    first: &[u8; 4],
    count: u8,
    start: &[[u8; 32]; 4],
) -> [[u8; 32]; 4]
    requires { (j : ℕ) → j < 4 → slice_index first.now j + count ≤ 256 }
    ensures { (id : List ℕ) (q i j : ℕ) → length id ≡ 16 → j < 4 → take 22 (slice_index_or texts.now j []) ≡ tagged id q i
        → slice_index_or result j [] ≡ steps id q i (slice_index first.now j) count (slice_index_or start.now j []) }
{
    let mut messages = *texts;
    let mut values = *start;
    'steps: for k in 0..count {
        put_steps(&mut messages, first, k, &values);
        let next = digests_of_55(&messages);
        values = next;
    }
    values
}

// Four chains of one leaf, each `count` steps on from its value `start` and its step `first`.
pub(crate) fn steps_of_four(
    id: &[u8; 16],
    q: u32,
    chains: &[u16; 4],
    first: &[u8; 4],
    count: u8,
    start: &[[u8; 32]; 4],
) -> [[u8; 32]; 4]
    requires { (j : ℕ) → j < 4 → slice_index first.now j + count ≤ 256 }
    ensures { (j : ℕ) → j < 4 → slice_index_or result j [] ≡ steps id.now q (slice_index chains.now j) (slice_index first.now j) count (slice_index_or start.now j []) }
{
    steps_of_texts(&step_messages(id, q, chains), first, count, start)
}
