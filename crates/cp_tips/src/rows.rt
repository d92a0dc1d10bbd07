//! The rows of a table, 88 bytes each.
ghost use Rattle.std.specs.Prelude.{ℕ, ◌≡◌, ◌+◌, ◌≤◌, ◌<◌, List, length, take, drop};
ghost use Rattle.std.specs.Int.{w64, from_be_bytes};
ghost use Rattle.cp_bytes.specs.Fields.{fields_at};
ghost use Rattle.cp_tips.specs.Rows.{row_of, tip_of};
ghost use Rattle.cp_tips.specs.Table.{row_fields};
ghost use Rattle.cp_tips.specs.View.{tip_view};

use crate::Tip;

// The block of a row.
pub(crate) fn block_of(row: &[u8; 88]) -> u64
    ensures { result ≡ (row_of row.now).block }
{
    number_at(row, 0)
}

// The count of a row.
pub(crate) fn count_of(row: &[u8; 88]) -> u64
    ensures { result ≡ (tip_of row.now).count }
{
    number_at(row, 8)
}

// The tip of a row.
pub(crate) fn tip_of(row: &[u8; 88]) -> Tip
    ensures { tip_view result ≡ tip_of row.now }
{
    Tip {
        count: count_of(row),
        version: number_at(row, 16),
        content: hash_at(row, 24),
        head: hash_at(row, 56),
    }
}

// The number of the eight bytes from `at` on, big endian.
fn number_at(bytes: &[u8], at: usize) -> u64
    requires { at + 8 ≤ length bytes.now }
    ensures { result ≡ from_be_bytes w64 (take 8 (drop at bytes.now)) }
{
    let part = &bytes[at..at + 8];
    u64::from_be_bytes([
        part[0], part[1], part[2], part[3], part[4], part[5], part[6], part[7],
    ])
}

// The 32 bytes from `at` on.
fn hash_at(bytes: &[u8], at: usize) -> [u8; 32]
    requires { at + 32 ≤ length bytes.now }
    ensures { result ≡ take 32 (drop at bytes.now) }
{
    let mut out = [0u8; 32];
    out.copy_from_slice(&bytes[at..at + 32]);
    out
}

// How many bytes are left where the first field that isn't whole begins, in a row that is cut short to
// so many.
pub(crate) fn left_in_row(size: usize) -> usize
    requires { size < 88 }
    ensures begins { (bytes : List ℕ) → length bytes ≡ size → fields_at row_fields bytes ≡ Err result }
    ensures within { result ≤ size }
{
    match size {
        0..=7 => size,
        8..=15 => size - 8,
        16..=23 => size - 16,
        24..=55 => size - 24,
        _ => size - 56,
    }
}
