//! The types of one-time signatures.
ghost use Rattle.std.specs.Prelude.{◌≡◌, IsTrue};
ghost use Rattle.std.specs.Option.{SomeIff};

/// A type of LM-OTS signatures (RFC 8554, 4.1, table 1), named by w, the bits of a digit. All types
/// hash by SHA-256 with n = 32 bytes.
#[derive(Clone, Copy, Debug, PartialEq, Eq)]
pub enum OtsType {
    W1,
    W2,
    W4,
    W8,
}

impl OtsType {
    ghost use Rattle.lms_ots.specs.Parameters.{is_ots_code, ots_of, code_of, chains_of, shift_of, width_of, sig_len_of};

    /// The type with this code, or nothing where the table has no such code.
    pub fn from_code(code: u32) -> Option<OtsType>
        ensures { SomeIff result (IsTrue (is_ots_code code)) (ots_of code) }
    {
        match code {
            1 => Some(OtsType::W1),
            2 => Some(OtsType::W2),
            3 => Some(OtsType::W4),
            4 => Some(OtsType::W8),
            _ => None,
        }
    }

    /// The type's code.
    pub fn code(self) -> u32
        ensures { result ≡ code_of self }
    {
        match self {
            OtsType::W1 => 1,
            OtsType::W2 => 2,
            OtsType::W4 => 3,
            OtsType::W8 => 4,
        }
    }

    /// p, the number of chains: one for each digit of the hash and of its checksum (RFC 8554, 4.1).
    pub fn p(self) -> u32
        ensures { result ≡ chains_of self }
    {
        match self {
            OtsType::W1 => 265,
            OtsType::W2 => 133,
            OtsType::W4 => 67,
            OtsType::W8 => 34,
        }
    }

    /// ls, by how many bits the checksum is shifted left.
    pub fn ls(self) -> u32
        ensures { result ≡ shift_of (width_of self) }
    {
        match self {
            OtsType::W1 => 7,
            OtsType::W2 => 6,
            OtsType::W4 => 4,
            OtsType::W8 => 0,
        }
    }

    /// w, the bits of a digit.
    pub fn w(self) -> u32
        ensures { result ≡ width_of self }
    {
        match self {
            OtsType::W1 => 1,
            OtsType::W2 => 2,
            OtsType::W4 => 4,
            OtsType::W8 => 8,
        }
    }

    /// The length of a signature in bytes: 4 of the type code, 32 of the randomizer, and 32 of each of
    /// the p values (RFC 8554, 4.5).
    pub fn sig_len(self) -> usize
        ensures { result ≡ sig_len_of self }
    {
        4 + 32 * (self.p() as usize + 1)
    }
}
