//! The heights of trees for which keys are made.
ghost use Rattle.std.specs.Prelude.{◌≡◌, ◌^◌};
ghost use Rattle.lms_tree.specs.Parameters.{levels_of, height_code, lms_code_of};

use crate::lms_type::LmsType;

/// The height of a tree whose private key is made here: 32, 1,024 or 32,768 leaves.
#[derive(Clone, Copy, Debug, PartialEq, Eq)]
pub enum Height {
    H5,
    H10,
    H15,
}

impl Height {
    /// h, the number of levels above the leaves.
    pub fn levels(self) -> u32
        ensures { result ≡ levels_of self }
    {
        match self {
            Height::H5 => 5,
            Height::H10 => 10,
            Height::H15 => 15,
        }
    }

    /// The number of leaves.
    pub fn leaves(self) -> u32
        ensures { result ≡ 2 ^ levels_of self }
    {
        match self {
            Height::H5 => 32,
            Height::H10 => 1024,
            Height::H15 => 32768,
        }
    }

    // The height as a public key has it.
    pub(crate) fn lms(self) -> LmsType
        ensures { lms_code_of result ≡ height_code self }
    {
        match self {
            Height::H5 => LmsType::H5,
            Height::H10 => LmsType::H10,
            Height::H15 => LmsType::H15,
        }
    }
}
