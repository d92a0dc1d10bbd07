//! The check of a put by a key that is at hand.
ghost use Rattle.std.specs.Prelude.{◌≡◌, IfOk};
ghost use Rattle.cp_statements.specs.View.{envelope_view};
ghost use Rattle.cp_families.specs.Checking.{verify_put_of};

use crate::{PutFault, VerifiedPut};
use cp_statements::{Envelope, PutRequest};
use lms_tree::{PublicKey, verify};

/// The put that the envelope holds, where the key verifies its signature and it is for this store.
/// The refusals come exactly, in the order `Malformed`, `WrongStore`, `BadSignature`. It takes no
/// memory.
///
/// Whether the key is an authorized writer's is for the caller to know, as one does who found it in a
/// families list by `Families::key_of`.
#[tactic(auto, unfolding(crate::specs::Checking::verify_put_of))]
pub fn verify_put<'a>(
    store: &[u8; 32],
    key: &PublicKey,
    envelope: &Envelope<'a>,
) -> Result<VerifiedPut<'a>, PutFault>
    ensures answer { result ≡ verify_put_of store.now key.now (envelope_view envelope.now) }
    ensures key { IfOk result (λ p. p.key ≡ key.now) }
{
    let request = PutRequest::read(envelope.text)?;
    if request.store != *store {
        return Err(PutFault::WrongStore);
    }
    if !verify(key, &request.text(), envelope.signature) {
        return Err(PutFault::BadSignature);
    }
    Ok(VerifiedPut::new(request, envelope.signature, *key))
}
