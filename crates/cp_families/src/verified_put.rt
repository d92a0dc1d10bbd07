//! A put that an authorized writer signed.
ghost use Rattle.std.specs.Prelude.{◌≡◌};

use cp_statements::PutRequest;
use lms_tree::PublicKey;
use std::marker::Model;

/// A put request with a signature that a writer's key verifies. Only `Families::check_put` and `verify_put` make one, so
/// whoever holds one holds the fact that the writer's key, which it tells, verifies the signature on
/// the request's text. Contracts see the request, the signature and the key.
#[derive(Drop)]
pub struct VerifiedPut<'a> {
    request: PutRequest,
    signature: &'a [u8],
    key: PublicKey,
}

impl<'a> Model for VerifiedPut<'a> {
    ghost use Rattle.cp_families.specs.Checking.{SignedPut};

    ghost Value = { SignedPut };

    ghost use Rattle.cp_families.specs.Signed.{signed_view, WasSigned};

    ghost view = { signed_view };

    ghost invariant = { WasSigned };
}

impl<'a> VerifiedPut<'a> {
    ghost use Rattle.cp_statements.specs.View.{put_request_view};
    ghost use Rattle.cp_families.specs.Checking.{IsSigned};

    // The put of these parts.
    pub(crate) fn new(request: PutRequest, signature: &'a [u8], key: PublicKey) -> VerifiedPut<'a>
        requires { IsSigned (record { request = put_request_view request; signature = signature.now; key = key }) }
        ensures { result ≡ record { request = put_request_view request; signature = signature.now; key = key } }
    {
        VerifiedPut {
            request,
            signature,
            key,
        }
    }

    /// The request.
    pub fn request(&self) -> &PutRequest
        ensures request { put_request_view result.now ≡ self.now.request }
        ensures signed { IsSigned self.now }
    {
        &self.request
    }

    /// The writer's signature on it.
    pub fn signature(&self) -> &'a [u8]
        ensures signature { result.now ≡ self.now.signature }
        ensures signed { IsSigned self.now }
    {
        self.signature
    }

    /// The writer's key, which verifies the signature.
    pub fn key(&self) -> &PublicKey
        ensures key { result.now ≡ self.now.key }
        ensures signed { IsSigned self.now }
    {
        &self.key
    }
}
