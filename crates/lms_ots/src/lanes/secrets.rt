//! The chains of a leaf from their secret starts, all the same number of steps, four side by side.
ghost use Rattle.std.specs.Prelude.{◌≡◌, ◌⊎◌, ℕ, ◌+◌, ◌*◌, ◌<◌, ◌≤◌, [], length, slice_index_or};
ghost use Rattle.lms_ots.specs.Ots.{chain};
ghost use Rattle.lms_ots.specs.Signing.{secret_start};

use crate::lanes::four::steps_of_four;

// Chains `i` to `i + 3`, `count` steps on from their secret starts.
fn four_from_secret(id: &[u8; 16], q: u32, i: u16, secret: &[u8; 32], count: u8) -> [[u8; 32]; 4]
    requires { i + 4 ≤ 65536 }
    ensures { (j : ℕ) → j < 4 → slice_index_or result j [] ≡ chain id.now q (i + j) 0 count (secret_start id.now q (i + j) secret.now) }
{
    let chains = [i, i + 1, i + 2, i + 3];
    let starts = steps_of_four(id, q, &chains, &[0xff; 4], 1, &[*secret; 4]);
    steps_of_four(id, q, &chains, &[0; 4], count, &starts)
}

// Writes four values from `i` on.
fn put_four(values: &mut [[u8; 32]], i: usize, four: &[[u8; 32]; 4])
    requires { i + 4 ≤ length values.old }
    ensures four { (j : ℕ) → j < 4 → slice_index_or values.new (i + j) [] ≡ slice_index_or four.now j [] }
    ensures others { (k : ℕ) → (k < i) ⊎ (i + 4 ≤ k) → slice_index_or values.new k [] ≡ slice_index_or values.old k [] }
{
    values[i] = four[0];
    values[i + 1] = four[1];
    values[i + 2] = four[2];
    values[i + 3] = four[3];
}

// All chains, `count` steps on from their secret starts. Where their number is no multiple of four
// the last four overlap those before them.
pub(crate) fn chains_from_secret(
    id: &[u8; 16],
    q: u32,
    secret: &[u8; 32],
    count: u8,
    values: &mut [[u8; 32]],
)
    requires some { 4 ≤ length values.old }
    requires few { length values.old ≤ 65536 }
    ensures { (i : ℕ) → i < length values.old → slice_index_or values.new i [] ≡ chain id.now q i 0 count (secret_start id.now q i secret.now) }
{
    'groups: for group in 0..values.len().div_ceil(4) {
        let i = (4 * group).min(values.len() - 4);
        let four = four_from_secret(id, q, i as u16, secret, count);
        put_four(values, i, &four);
    }
}
