//! The digits of a text and their checksum (RFC 8554, 3.1.3 and 4.4).
ghost use Rattle.std.specs.Prelude.{◌≡◌, ◌+◌, ◌-◌, ◌*◌, ◌/◌, ◌%◌, ◌^◌, ◌<◌, ◌≤◌, length};
ghost use Rattle.lms_ots.specs.Parameters.{IsWidth};
ghost use Rattle.lms_ots.specs.Ots.{coef, cksm};

/// The digit `i` of `w` bits of `s`, counted from the high bits of its first byte on
/// (RFC 8554, 3.1.3).
#[tactic(auto, unfolding(crate::specs::Ots::coef))]
pub fn coef(s: &[u8], i: u32, w: u32) -> u8
    requires width { IsWidth w }
    requires within { i * w / 8 < length s.now }
    ensures value { result ≡ coef s.now i w }
    ensures small { result < 2 ^ w }
{
    let byte = s[(i as usize) * (w as usize) / 8];
    let shift = 8 - (w * (i % (8 / w)) + w);
    let mask = (1u32 << w) - 1;
    (mask & (byte as u32 >> shift)) as u8
}

/// The checksum of the digits of a hash: how far each is from the greatest, added up and shifted
/// left so that its own digits begin at the first of 16 bits (RFC 8554, 4.4, algorithm 2).
#[tactic(auto, unfolding(crate::specs::Ots::cksm_sum, crate::specs::Ots::cksm))]
pub fn cksm(s: &[u8; 32], w: u32) -> u16
    requires { IsWidth w }
    ensures { result ≡ cksm s.now w }
{
    let mut sum: u32 = 0;
    for i in 0..256 / w {
        sum += (1 << w) - 1 - u32::from(coef(s, i, w));
    }
    let shift = match w {
        1 => 7,
        2 => 6,
        4 => 4,
        _ => 0,
    };
    (sum << shift) as u16
}
