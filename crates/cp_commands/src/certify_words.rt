//! The words of `certify`.
ghost use Rattle.std.specs.Prelude.{◌<◌, ◌≤◌, ◌^◌};
ghost use Rattle.lms_tree.specs.Parameters.{levels_of};

use lms_ots::OtsType;
use lms_tree::Height;

/// The words of `certify`.
#[derive(Clone, Copy, Debug, PartialEq, Eq)]
pub struct CertifyWords<'a> {
    /// The file of the operator's seed, 48 bytes.
    pub seed: &'a str,
    /// The height of the top tree: 5 or 10.
    pub top: Height,
    /// The height of the life's tree: 5, 10 or 15.
    pub height: Height,
    /// The type of the one-time signatures of both, by its width: 1, 2, 4 or 8.
    pub ots: OtsType,
    /// The number of the life, which is one of the top tree's leaves.
    pub life: u32,
    /// The file that is written first: the operator's key.
    pub key: &'a str,
    /// The file that is written then: the life's certificate.
    pub certificate: &'a str,
    /// The file that is written last: the life's seed.
    pub out: &'a str,
    ghost few_levels: { levels_of top ≤ 10 },
    ghost life_is_one: { life < 2 ^ levels_of top },
}
