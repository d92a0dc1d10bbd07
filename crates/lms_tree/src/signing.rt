//! The parts of a signature (RFC 8554, 5.4).
ghost use Rattle.std.specs.Prelude.{◌≡◌, ◌+◌, ◌-◌, ◌*◌, ◌/◌, ◌%◌, ◌^◌, ◌<◌, ◌≤◌, ◌++◌, length, take};
ghost use Rattle.std.specs.Int.{w32, to_be_bytes};
ghost use Rattle.lms_ots.specs.Parameters.{sig_len_of};
ghost use Rattle.lms_ots.specs.Signing.{ots_signature};
ghost use Rattle.lms_tree.specs.Parameters.{levels_of, height_code};
ghost use Rattle.lms_tree.specs.Kept.{path_in};

use crate::height::Height;
use cp_bytes::put;
use lms_ots::{OtsType, ots_sign};

// Writes the one-time signature from 4 on.
#[tactic(auto, using(std::proofs::lemmas::Slice::overwrites))]
fn put_one_time(t: OtsType, id: &[u8; 16], leaf: u32, seed: &[u8; 32], text: &[u8], out: &mut [u8])
    requires { 4 + sig_len_of t ≤ length out.old }
    ensures { take (4 + sig_len_of t) out.new ≡ take 4 out.old ++ ots_signature t id.now leaf seed.now text.now }
{
    ots_sign(t, id, leaf, seed, text, &mut out[4..4 + t.sig_len()]);
}

// Writes all but the path.
pub(crate) fn put_head(
    t: OtsType,
    height: Height,
    id: &[u8; 16],
    leaf: u32,
    seed: &[u8; 32],
    text: &[u8],
    out: &mut [u8],
)
    requires { 8 + sig_len_of t ≤ length out.old }
    ensures { take (8 + sig_len_of t) out.new
        ≡ to_be_bytes w32 leaf ++ ots_signature t id.now leaf seed.now text.now
        ++ to_be_bytes w32 (height_code height) }
{
    put(out, 0, &leaf.to_be_bytes());
    put_one_time(t, id, leaf, seed, text, out);
    put(out, 4 + t.sig_len(), &height.lms().code().to_be_bytes());
}

// Writes the path: the siblings on the way up from the leaf, as they stand in the array of nodes.
#[tactic(auto, using(crate::proofs::Heights::heights), unfolding(crate::specs::Kept::path_in, crate::specs::Tree::above))]
pub(crate) fn put_path(height: Height, nodes: &[[u8; 32]], leaf: u32, out: &mut [u8])
    requires leaf { leaf < 2 ^ levels_of height }
    requires nodes { length nodes.now ≡ 2 * 2 ^ levels_of height }
    requires room { length out.old ≡ 32 * levels_of height }
    ensures { out.new ≡ path_in nodes.now (2 ^ levels_of height + leaf) (levels_of height) }
{
    let mut r = height.leaves() + leaf;
    for i in 0..height.levels() {
        let other = if r % 2 == 1 { r - 1 } else { r + 1 };
        put(out, 32 * i as usize, &nodes[other as usize]);
        r /= 2;
    }
}
