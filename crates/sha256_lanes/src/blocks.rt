//! Messages of 55 bytes: their padding to one block, the words of four blocks, and their digests
//! (FIPS 180-4, sections 5.1.1, 5.2.1 and 6.2.2).

ghost use Rattle.std.specs.Prelude.{◌≡◌, ℕ, List, [], ◌<◌, ◌≤◌, ◌*◌, ◌+◌, length, slice_index, slice_index_or};
ghost use Rattle.sha2.specs.Sha256.{digest_bytes, first_words, padded_message, sha256, word_at};
ghost use Rattle.sha256_lanes.specs.Lanes.{lane};

use crate::rounds::{compress, start};
use std::simd::u32x4;

// The padding of a message of 55 bytes, at its place: a bit 1, and the length in bits, 440.
const PADDED: [u8; 64] = [
    0, 0, 0, 0, 0, 0, 0, 0, 0, 0, 0, 0, 0, 0, 0, 0, 0, 0, 0, 0, 0, 0, 0, 0, 0, 0, 0, 0, 0, 0, 0, 0,
    0, 0, 0, 0, 0, 0, 0, 0, 0, 0, 0, 0, 0, 0, 0, 0, 0, 0, 0, 0, 0, 0, 0, 0x80, 0, 0, 0, 0, 0, 0, 1,
    0xb8,
];

// The message and its padding: one block.
#[inline(always)]
fn padded(message: &[u8; 55]) -> [u8; 64]
    ensures bytes { result ≡ padded_message message.now }
    ensures long { length message.now ≡ 55 }
{
    let mut out = PADDED;
    out[..55].copy_from_slice(message);
    out
}

// The word at byte `at` of a block.
#[inline(always)]
fn load_be(block: &[u8; 64], at: usize) -> u32
    requires { at + 4 ≤ 64 }
    ensures { result ≡ word_at block.now at }
{
    u32::from_be_bytes([block[at], block[at + 1], block[at + 2], block[at + 3]])
}

// The words at byte `at` of the blocks, each in its lane.
#[inline(always)]
fn row(blocks: &[[u8; 64]; 4], at: usize) -> u32x4
    requires { at + 4 ≤ 64 }
    ensures { (j : ℕ) → j < 4 → slice_index result j ≡ word_at (slice_index_or blocks.now j []) at }
{
    u32x4::from_array([
        load_be(&blocks[0], at),
        load_be(&blocks[1], at),
        load_be(&blocks[2], at),
        load_be(&blocks[3], at),
    ])
}

// The 16 words of the blocks, each block in its lane.
#[inline(always)]
pub(crate) fn gathered(blocks: &[[u8; 64]; 4]) -> [u32x4; 16]
    ensures { (j : ℕ) → j < 4 → lane j result ≡ first_words (slice_index_or blocks.now j []) 16 }
{
    [
        row(blocks, 0),
        row(blocks, 4),
        row(blocks, 8),
        row(blocks, 12),
        row(blocks, 16),
        row(blocks, 20),
        row(blocks, 24),
        row(blocks, 28),
        row(blocks, 32),
        row(blocks, 36),
        row(blocks, 40),
        row(blocks, 44),
        row(blocks, 48),
        row(blocks, 52),
        row(blocks, 56),
        row(blocks, 60),
    ]
}

// The digest in lane `j`.
#[inline(always)]
fn digest_of(h: &[u32x4; 8], j: usize) -> [u8; 32]
    requires { j < 4 }
    ensures { result ≡ digest_bytes (lane j h.now) 8 }
{
    let mut out = [0u8; 32];
    'words: for i in 0..8 {
        let lanes = h[i].to_array();
        out[4 * i..4 * i + 4].copy_from_slice(&lanes[j].to_be_bytes());
    }
    out
}

// The digests of the four lanes.
#[inline(always)]
pub(crate) fn digests_of(h: &[u32x4; 8]) -> [[u8; 32]; 4]
    ensures { (j : ℕ) → j < 4 → slice_index_or result j [] ≡ digest_bytes (lane j h.now) 8 }
{
    [
        digest_of(h, 0),
        digest_of(h, 1),
        digest_of(h, 2),
        digest_of(h, 3),
    ]
}

// The digests of four messages that come as their padded blocks.
fn digests(blocks: &[[u8; 64]; 4]) -> [[u8; 32]; 4]
    ensures { (m : List ℕ) (j : ℕ) → j < 4 → length m < 56 → slice_index_or blocks.now j [] ≡ padded_message m
        → slice_index_or result j [] ≡ sha256 m }
{
    let words = gathered(blocks);
    let h = compress(start(), words);
    digests_of(&h)
}

/// The SHA-256 digests of four messages of 55 bytes, each at its message's place: one compression
/// for each. Takes no memory.
pub fn digests_of_55(messages: &[[u8; 55]; 4]) -> [[u8; 32]; 4]
    ensures { (j : ℕ) → j < 4 → slice_index_or result j [] ≡ sha256 (slice_index_or messages.now j []) }
{
    let blocks = [
        padded(&messages[0]),
        padded(&messages[1]),
        padded(&messages[2]),
        padded(&messages[3]),
    ];
    digests(&blocks)
}
