//! Public keys.
ghost use Rattle.std.specs.Prelude.{◌≡◌, ◌≢◌, ◌+◌, ◌≤◌, ◌++◌, IsTrue, IfErr, length};
ghost use Rattle.std.specs.Int.{w32, to_be_bytes};
ghost use Rattle.std.specs.Result.{OkIff};
ghost use Rattle.lms_ots.specs.Parameters.{code_of};
ghost use Rattle.lms_tree.specs.Parameters.{lms_code_of};
ghost use Rattle.lms_tree.specs.PublicKey.{key_reads, key_fault, key_lms, key_id, key_root, key_type, key_height, key_sig_len};

use crate::fields::{array_at, number_at};
use crate::key_fault::KeyFault;
use crate::lms_type::LmsType;
use cp_bytes::put;
use lms_ots::OtsType;
use std::marker::Model;

/// A public key (RFC 8554, 5.3), which contracts see as its 56 bytes: the LMS code, the LM-OTS code
/// (four bytes each, big endian), the identifier I of 16 bytes and the tree's root T[1].
#[derive(Clone, Copy, Debug)]
pub struct PublicKey {
    lms: LmsType,
    ots: OtsType,
    id: [u8; 16],
    root: [u8; 32],
}

impl Model for PublicKey {
    ghost use Rattle.std.specs.Prelude.{List, ℕ};

    ghost Value = { List ℕ };

    ghost use Rattle.lms_tree.specs.Spelled.{spelled, fields_of, HasLengths, fields-spelled};

    ghost view = { spelled };

    ghost invariant = { HasLengths };

    ghost inverse = { fields_of };

    ghost inverse_ok = { fields-spelled };
}

impl PublicKey {
    // The key of these fields.
    pub(crate) fn new(lms: LmsType, ots: OtsType, id: [u8; 16], root: [u8; 32]) -> PublicKey
        ensures { result ≡ to_be_bytes w32 (lms_code_of lms) ++ to_be_bytes w32 (code_of ots) ++ id ++ root }
    {
        PublicKey { lms, ots, id, root }
    }

    /// The key that these bytes are. `Length` comes exactly where there aren't 56 of them, and then
    /// `Code` exactly where one of the two codes isn't one of the standard's tables.
    pub fn read(bytes: &[u8]) -> Result<PublicKey, KeyFault>
        ensures reads { OkIff result (IsTrue (key_reads bytes.now)) bytes.now }
        ensures fault { IfErr result (λ fault. fault ≡ key_fault bytes.now) }
    {
        if bytes.len() != 56 {
            return Err(KeyFault::Length {
                found: bytes.len() as u64,
            });
        }
        let lms_code = number_at(bytes, 0);
        let ots_code = number_at(bytes, 4);
        match (LmsType::from_code(lms_code), OtsType::from_code(ots_code)) {
            (Some(lms), Some(ots)) => Ok(PublicKey {
                lms,
                ots,
                id: array_at(bytes, 8),
                root: array_at(bytes, 24),
            }),
            _ => Err(KeyFault::Code {
                lms: lms_code,
                ots: ots_code,
            }),
        }
    }

    /// The 56 bytes.
    #[tactic(auto, using(crate::proofs::KeyBytes::spelled_reads))]
    pub fn bytes(&self) -> [u8; 56]
        ensures bytes { result ≡ self.now }
        ensures reads { IsTrue (key_reads self.now) }
    {
        let mut out = [0u8; 56];
        put(&mut out, 0, &self.lms.code().to_be_bytes());
        put(&mut out, 4, &self.ots.code().to_be_bytes());
        put(&mut out, 8, &self.id);
        put(&mut out, 24, &self.root);
        out
    }

    /// The length in bytes of a signature under the key, which its two codes fix (RFC 8554, 5.4).
    pub fn sig_len(&self) -> usize
        ensures value { result ≡ key_sig_len self.now }
        ensures bound { result ≤ 9324 }
        ensures reads { IsTrue (key_reads self.now) }
    {
        8 + self.ots().sig_len() + 32 * self.height() as usize
    }

    // h, the tree's height.
    pub(crate) fn height(&self) -> u32
        ensures value { result ≡ key_height self.now }
        ensures bound { result ≤ 25 }
    {
        self.lms.height()
    }

    // The one-time type.
    #[tactic(auto, using(crate::proofs::KeyBytes::spelled_reads))]
    pub(crate) fn ots(&self) -> OtsType
        ensures value { result ≡ key_type self.now }
        ensures reads { IsTrue (key_reads self.now) }
    {
        self.ots
    }

    // I, the identifier.
    pub(crate) fn id(&self) -> &[u8; 16]
        ensures { result.now ≡ key_id self.now }
    {
        &self.id
    }

    // T[1], the root.
    pub(crate) fn root(&self) -> &[u8; 32]
        ensures { result.now ≡ key_root self.now }
    {
        &self.root
    }

    // The tree's code.
    pub(crate) fn lms_code(&self) -> u32
        ensures { result ≡ key_lms self.now }
    {
        self.lms.code()
    }
}
