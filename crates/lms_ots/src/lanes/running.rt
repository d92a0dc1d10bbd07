//! The chains of a leaf, each from a step to a step of its own, four side by side.
ghost use Rattle.std.specs.Prelude.{◌≡◌, ℕ, ◌+◌, ◌-◌, ◌<◌, ◌≤◌, [], List, length, slice_index, slice_index_or};
ghost use Rattle.lms_ots.specs.Ots.{chain, steps};
ghost use Rattle.lms_ots.specs.Lanes.{Advanced};

use crate::chains::chain;
use crate::lanes::four::steps_of_four;

// How many steps four chains have left.
fn steps_left(four: &[usize; 4], at: &[u8], to: &[u8]) -> [u8; 4]
    requires at { (j : ℕ) → j < 4 → slice_index four.now j < length at.now }
    requires to { (j : ℕ) → j < 4 → slice_index four.now j < length to.now }
    requires within { (j : ℕ) → j < 4 → slice_index at.now (slice_index four.now j) ≤ slice_index to.now (slice_index four.now j) }
    ensures { (j : ℕ) → j < 4 → slice_index result j ≡ slice_index to.now (slice_index four.now j) - slice_index at.now (slice_index four.now j) }
{
    [
        to[four[0]] - at[four[0]],
        to[four[1]] - at[four[1]],
        to[four[2]] - at[four[2]],
        to[four[3]] - at[four[3]],
    ]
}

// The lane with the fewest steps left.
fn shortest(left: &[u8; 4]) -> usize
    ensures lane { result < 4 }
    ensures fewest { (j : ℕ) → j < 4 → slice_index left.now result ≤ slice_index left.now j }
{
    let front = if left[0] <= left[1] { 0 } else { 1 };
    let back = if left[2] <= left[3] { 2 } else { 3 };
    if left[front] <= left[back] {
        front
    } else {
        back
    }
}

// The lane with the most steps left.
fn longest(left: &[u8; 4]) -> usize
    ensures { result < 4 }
{
    let front = if left[0] >= left[1] { 0 } else { 1 };
    let back = if left[2] >= left[3] { 2 } else { 3 };
    if left[front] >= left[back] {
        front
    } else {
        back
    }
}

// The values of four chains, `count` steps on.
fn values_after(
    id: &[u8; 16],
    q: u32,
    four: &[usize; 4],
    count: u8,
    at: &[u8],
    values: &[[u8; 32]],
) -> [[u8; 32]; 4]
    requires long { length values.now ≤ length at.now }
    requires few { length values.now ≤ 65536 }
    requires chains { (j : ℕ) → j < 4 → slice_index four.now j < length values.now }
    requires steps { (j : ℕ) → j < 4 → slice_index at.now (slice_index four.now j) + count < 256 }
    ensures { (j : ℕ) → j < 4 → slice_index_or result j []
        ≡ steps id.now q (slice_index four.now j) (slice_index at.now (slice_index four.now j)) count (slice_index_or values.now (slice_index four.now j) []) }
{
    let chains = [
        four[0] as u16,
        four[1] as u16,
        four[2] as u16,
        four[3] as u16,
    ];
    let first = [at[four[0]], at[four[1]], at[four[2]], at[four[3]]];
    let start = [
        values[four[0]],
        values[four[1]],
        values[four[2]],
        values[four[3]],
    ];
    steps_of_four(id, q, &chains, &first, count, &start)
}

// The steps of four chains, `count` further.
fn steps_after(four: &[usize; 4], count: u8, at: &[u8]) -> [u8; 4]
    requires chains { (j : ℕ) → j < 4 → slice_index four.now j < length at.now }
    requires steps { (j : ℕ) → j < 4 → slice_index at.now (slice_index four.now j) + count < 256 }
    ensures { (j : ℕ) → j < 4 → slice_index result j ≡ slice_index at.now (slice_index four.now j) + count }
{
    [
        at[four[0]] + count,
        at[four[1]] + count,
        at[four[2]] + count,
        at[four[3]] + count,
    ]
}

// Takes four chains, of which some may be the same, `count` steps on.
fn advance(
    id: &[u8; 16],
    q: u32,
    four: &[usize; 4],
    count: u8,
    at: &mut [u8],
    values: &mut [[u8; 32]],
)
    requires long { length values.old ≤ length at.old }
    requires few { length values.old ≤ 65536 }
    requires chains { (j : ℕ) → j < 4 → slice_index four.now j < length values.old }
    requires steps { (j : ℕ) → j < 4 → slice_index at.old (slice_index four.now j) + count < 256 }
    ensures { (from to : List ℕ) (starts : List (List ℕ)) → Advanced id.now q from starts to at.old values.old
        → ((j : ℕ) → j < 4 → slice_index at.old (slice_index four.now j) + count ≤ slice_index to (slice_index four.now j))
        → Advanced id.now q from starts to at.new values.new }
{
    let ends = values_after(id, q, four, count, at, values);
    let places = steps_after(four, count, at);
    'lanes: for j in 0..4 {
        at[four[j]] = places[j];
        values[four[j]] = ends[j];
    }
}

// Takes the chains on their way, four at a time: each time as far as the one of the four with the
// fewest steps left, whose lane then goes to the next chain. Once all chains had a lane, one that is
// free doubles the chain with the most steps left. The last two chains may not have come to their ends.
fn advance_all(id: &[u8; 16], q: u32, at: &mut [u8], to: &[u8], values: &mut [[u8; 32]])
    requires some { 4 ≤ length values.old }
    requires few { length values.old ≤ 65536 }
    requires at { length values.old ≤ length at.old }
    requires to { length values.old ≤ length to.now }
    requires within { (i : ℕ) → i < length values.old → slice_index at.old i ≤ slice_index to.now i }
    ensures { Advanced id.now q at.old values.old to.now at.new values.new }
{
    let count = values.len();
    let mut four = [0, 1, 2, 3];
    'turns: for next in 4..count + 2 {
        let left = steps_left(&four, at, to);
        let lane = shortest(&left);
        advance(id, q, &four, left[lane], at, values);
        four[lane] = if next < count {
            next
        } else {
            four[longest(&left)]
        };
    }
}

// The value of chain `i` at step `to`, where it may stand already.
#[tactic(auto, using(crate::proofs::SideBySide::chain_done))]
fn end_of(id: &[u8; 16], q: u32, i: u16, at: u8, to: u8, value: [u8; 32]) -> [u8; 32]
    requires { at ≤ to }
    ensures { result ≡ chain id.now q i at to value }
{
    if at < to {
        chain(id, q, i, at, to, value)
    } else {
        value
    }
}

// Takes each chain that has steps left to its end, one after another.
fn finish(id: &[u8; 16], q: u32, at: &[u8], to: &[u8], values: &mut [[u8; 32]])
    requires few { length values.old ≤ 65536 }
    requires at { length values.old ≤ length at.now }
    requires to { length values.old ≤ length to.now }
    requires within { (i : ℕ) → i < length values.old → slice_index at.now i ≤ slice_index to.now i }
    ensures { (i : ℕ) → i < length values.old → slice_index_or values.new i [] ≡ chain id.now q i (slice_index at.now i) (slice_index to.now i) (slice_index_or values.old i []) }
{
    'chains: for i in 0..values.len() {
        let end = end_of(id, q, i as u16, at[i], to[i], values[i]);
        values[i] = end;
    }
}

// Takes each chain `i` from its step `at[i]` up to and without its step `to[i]`.
pub(crate) fn run(id: &[u8; 16], q: u32, at: &mut [u8], to: &[u8], values: &mut [[u8; 32]])
    requires some { 4 ≤ length values.old }
    requires few { length values.old ≤ 65536 }
    requires at { length values.old ≤ length at.old }
    requires to { length values.old ≤ length to.now }
    requires within { (i : ℕ) → i < length values.old → slice_index at.old i ≤ slice_index to.now i }
    ensures { (i : ℕ) → i < length values.old → slice_index_or values.new i [] ≡ chain id.now q i (slice_index at.old i) (slice_index to.now i) (slice_index_or values.old i []) }
{
    advance_all(id, q, at, to, values);
    finish(id, q, at, to, values);
}
