//! Operations on four words at a time, one in each lane (FIPS 180-4, section 3.2).

ghost use Rattle.std.specs.Prelude.{◌≡◌, ℕ, ◌<◌, ◌*◌, ◌/◌, ◌^◌, bit_and, bit_or, bit_xor, slice_index};
ghost use Rattle.std.specs.Int.{w32, bit_not, rotate_right};
ghost use Rattle.sha2.specs.Sha256.{add32};

use std::simd::u32x4;

/// The word `k` in each lane.
#[inline(always)]
pub fn splat(k: u32) -> u32x4
    ensures { (j : ℕ) → j < 4 → slice_index result j ≡ k }
{
    u32x4::splat(k)
}

/// The sum modulo 2^32.
#[inline(always)]
pub fn add(a: u32x4, b: u32x4) -> u32x4
    ensures { (j : ℕ) → j < 4 → slice_index result j ≡ add32 (slice_index a j) (slice_index b j) }
{
    a + b
}

/// The exclusive or.
#[inline(always)]
pub fn xor(a: u32x4, b: u32x4) -> u32x4
    ensures { (j : ℕ) → j < 4 → slice_index result j ≡ bit_xor (slice_index a j) (slice_index b j) }
{
    a ^ b
}

/// The bitwise and.
#[inline(always)]
pub fn and(a: u32x4, b: u32x4) -> u32x4
    ensures { (j : ℕ) → j < 4 → slice_index result j ≡ bit_and (slice_index a j) (slice_index b j) }
{
    a & b
}

/// The complement.
#[inline(always)]
pub fn not(a: u32x4) -> u32x4
    ensures { (j : ℕ) → j < 4 → slice_index result j ≡ bit_not w32 (slice_index a j) }
{
    !a
}

/// ROTR: each word rotated right by `k`.
#[inline(always)]
pub fn rotated(a: u32x4, k: u32) -> u32x4
    requires { (0 < k) × (k < 32) }
    ensures { (j : ℕ) → j < 4 → slice_index result j ≡ rotate_right w32 (slice_index a j) k }
{
    (a >> u32x4::splat(k)) | (a << u32x4::splat(32 - k))
}

/// SHR: each word shifted right by `k`.
#[inline(always)]
pub fn shifted(a: u32x4, k: u32) -> u32x4
    requires { k < 32 }
    ensures { (j : ℕ) → j < 4 → slice_index result j ≡ slice_index a j / 2 ^ k }
{
    a >> u32x4::splat(k)
}
