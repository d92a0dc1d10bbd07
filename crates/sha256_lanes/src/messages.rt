//! Messages of any length, the same for all four: their padding, their blocks and their digests
//! (FIPS 180-4, sections 5.1.1, 5.2.1 and 6.2.2).

ghost use Rattle.std.specs.Prelude.{◌≡◌, ℕ, List, [], ◌∷◌, ◌<◌, ◌≤◌, ◌*◌, ◌+◌, ◌-◌, ◌/◌, ◌%◌, length, take, drop, replicate, slice_index, slice_index_or};
ghost use Rattle.sha2.specs.Sha256.{padded_message, sha256};

use crate::blocks::{digests_of, gathered};
use crate::rounds::{compress, start};

// The first bytes of a padding: a bit 1, and zeros.
const MARK: [u8; 64] = [
    0x80, 0, 0, 0, 0, 0, 0, 0, 0, 0, 0, 0, 0, 0, 0, 0, 0, 0, 0, 0, 0, 0, 0, 0, 0, 0, 0, 0, 0, 0, 0,
    0, 0, 0, 0, 0, 0, 0, 0, 0, 0, 0, 0, 0, 0, 0, 0, 0, 0, 0, 0, 0, 0, 0, 0, 0, 0, 0, 0, 0, 0, 0, 0,
    0,
];

// The padding without its length field, behind `left` bytes of a block.
fn padding(left: usize) -> &'static [u8]
    requires { left < 64 }
    ensures { result.now ≡ 0x80 ∷ replicate ((119 - left) % 64) 0 }
{
    &MARK[..(119 - left) % 64 + 1]
}

// The padded message from the last whole block of the message on: one block or two.
fn tail_of(message: &[u8]) -> [u8; 128]
    ensures { take (64 * ((length message.now % 64 + 8) / 64 + 1)) result ≡ drop (length message.now / 64 * 64) (padded_message message.now) }
{
    let left = message.len() % 64;
    let mark = padding(left);
    let bits = (message.len() as u64).wrapping_mul(8);
    let end = left + mark.len();
    let mut tail = [0; 128];
    tail[..left].copy_from_slice(&message[message.len() / 64 * 64..]);
    tail[left..end].copy_from_slice(mark);
    tail[end..end + 8].copy_from_slice(&bits.to_be_bytes());
    tail
}

// Block `n` of the padded message, whose end, from the message's last whole block on, is `tail`.
#[inline(always)]
fn block_of(message: &[u8], tail: &[u8; 128], n: usize) -> [u8; 64]
    requires tail { take (64 * ((length message.now % 64 + 8) / 64 + 1)) tail.now ≡ drop (length message.now / 64 * 64) (padded_message message.now) }
    requires within { n < (length message.now + 8) / 64 + 1 }
    ensures { result ≡ take 64 (drop (n * 64) (padded_message message.now)) }
{
    let whole = message.len() / 64;
    let mut block = [0; 64];
    if n < whole {
        block.copy_from_slice(&message[n * 64..n * 64 + 64]);
    } else {
        let at = (n - whole) * 64;
        block.copy_from_slice(&tail[at..at + 64]);
    }
    block
}

/// The SHA-256 digests of four messages of the same length, each at its message's place. Takes no
/// memory.
pub fn digests_of_four(first: &[u8], second: &[u8], third: &[u8], fourth: &[u8]) -> [[u8; 32]; 4]
    requires { (j : ℕ) → j < 4 → length (slice_index_or (first.now ∷ second.now ∷ third.now ∷ fourth.now ∷ []) j []) ≡ length first.now }
    ensures { (j : ℕ) → j < 4 → slice_index_or result j [] ≡ sha256 (slice_index_or (first.now ∷ second.now ∷ third.now ∷ fourth.now ∷ []) j []) }
{
    let tails = [
        tail_of(first),
        tail_of(second),
        tail_of(third),
        tail_of(fourth),
    ];
    let mut h = start();
    'turns: for n in 0..(first.len() + 8) / 64 + 1 {
        let four = [
            block_of(first, &tails[0], n),
            block_of(second, &tails[1], n),
            block_of(third, &tails[2], n),
            block_of(fourth, &tails[3], n),
        ];
        h = compress(h, gathered(&four));
    }
    digests_of(&h)
}
