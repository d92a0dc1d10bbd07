//! The six functions of SHA-256 (FIPS 180-4, section 4.1.2), in each lane.

ghost use Rattle.std.specs.Prelude.{◌≡◌, ℕ, ◌<◌, ◌/◌, ◌^◌, slice_index};
ghost use Rattle.sha2.specs.Sha256.{big_sigma0, big_sigma1, ch, maj, small_sigma0, small_sigma1};

use crate::words::{and, not, rotated, shifted, xor};
use std::simd::u32x4;

/// Ch: where a bit of `x` is 1 that of `y`, else that of `z`.
#[inline(always)]
pub fn ch(x: u32x4, y: u32x4, z: u32x4) -> u32x4
    ensures { (j : ℕ) → j < 4 → slice_index result j ≡ ch (slice_index x j) (slice_index y j) (slice_index z j) }
{
    xor(and(x, y), and(not(x), z))
}

/// Maj: the bit that most of the three have.
#[inline(always)]
pub fn maj(x: u32x4, y: u32x4, z: u32x4) -> u32x4
    ensures { (j : ℕ) → j < 4 → slice_index result j ≡ maj (slice_index x j) (slice_index y j) (slice_index z j) }
{
    xor(xor(and(x, y), and(x, z)), and(y, z))
}

/// The upper case Σ 0.
#[inline(always)]
pub fn big_sigma0(x: u32x4) -> u32x4
    ensures { (j : ℕ) → j < 4 → slice_index result j ≡ big_sigma0 (slice_index x j) }
{
    xor(xor(rotated(x, 2), rotated(x, 13)), rotated(x, 22))
}

/// The upper case Σ 1.
#[inline(always)]
pub fn big_sigma1(x: u32x4) -> u32x4
    ensures { (j : ℕ) → j < 4 → slice_index result j ≡ big_sigma1 (slice_index x j) }
{
    xor(xor(rotated(x, 6), rotated(x, 11)), rotated(x, 25))
}

/// The lower case σ 0.
#[inline(always)]
pub fn small_sigma0(x: u32x4) -> u32x4
    ensures { (j : ℕ) → j < 4 → slice_index result j ≡ small_sigma0 (slice_index x j) }
{
    xor(xor(rotated(x, 7), rotated(x, 18)), shifted(x, 3))
}

/// The lower case σ 1.
#[inline(always)]
pub fn small_sigma1(x: u32x4) -> u32x4
    ensures { (j : ℕ) → j < 4 → slice_index result j ≡ small_sigma1 (slice_index x j) }
{
    xor(xor(rotated(x, 17), rotated(x, 19)), shifted(x, 10))
}
