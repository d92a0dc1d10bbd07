//! The types of LMS trees.
ghost use Rattle.std.specs.Prelude.{◌≡◌, IsTrue};
ghost use Rattle.std.specs.Option.{SomeIff};
ghost use Rattle.lms_tree.specs.Parameters.{lms_code_of, is_lms_code, lms_of, height_of_code};

// A type of LMS trees (RFC 8554, 5.1, table 2), named by its height. All types hash by SHA-256 with
// m = 32 bytes.
#[derive(Clone, Copy, Debug, PartialEq, Eq)]
pub(crate) enum LmsType {
    H5,
    H10,
    H15,
    H20,
    H25,
}

impl LmsType {
    // The type with this code, or nothing where the table has no such code.
    pub(crate) fn from_code(code: u32) -> Option<LmsType>
        ensures { SomeIff result (IsTrue (is_lms_code code)) (lms_of code) }
    {
        match code {
            5 => Some(LmsType::H5),
            6 => Some(LmsType::H10),
            7 => Some(LmsType::H15),
            8 => Some(LmsType::H20),
            9 => Some(LmsType::H25),
            _ => None,
        }
    }

    // The type's code.
    pub(crate) fn code(self) -> u32
        ensures { result ≡ lms_code_of self }
    {
        match self {
            LmsType::H5 => 5,
            LmsType::H10 => 6,
            LmsType::H15 => 7,
            LmsType::H20 => 8,
            LmsType::H25 => 9,
        }
    }

    // h, the tree's height.
    pub(crate) fn height(self) -> u32
        ensures { result ≡ height_of_code (lms_code_of self) }
    {
        5 * (self.code() - 4)
    }
}
