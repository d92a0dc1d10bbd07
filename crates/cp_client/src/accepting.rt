//! Accepting an answer.
ghost use Rattle.cp_client.specs.Accepting.{accept_of};
ghost use Rattle.cp_client.specs.View.{asked_view, Answers};

use crate::{Accepted, Asked, ClientRefusal};
use cp_bytes::Cut;
use cp_statements::{Attestation, Envelope};
use lms_tree::{PublicKey, verify};

/// The store's reply, where it answers what was asked: the attestation's signature verifies under the
/// store's key, it is of the asked call, the content fits it, and its head is that of its entry. The
/// refusals come exactly, in the order of `ClientRefusal`. It takes no memory.
#[tactic(auto, unfolding(crate::specs::Accepting::accept_of))]
pub fn accept<'a>(
    key: &PublicKey,
    asked: &Asked<'_>,
    reply: &'a [u8],
) -> Result<Accepted<'a>, ClientRefusal>
    ensures { Answers result (accept_of key.now (asked_view asked.now) reply.now) }
{
    let mut cut = Cut::new(reply);
    let envelope = Envelope::take(&mut cut)?;
    let content = cut.take_rest();
    let attestation = Attestation::read(envelope.text)?;
    if !verify(key, envelope.text, envelope.signature) {
        return Err(ClientRefusal::BadSignature);
    }
    if let Some(field) = asked.other_field(&attestation) {
        return Err(ClientRefusal::OtherCall { field });
    }
    if !asked.content_fits(&attestation, content) {
        return Err(ClientRefusal::ContentMismatch);
    }
    if !asked.head_fits(&attestation) {
        return Err(ClientRefusal::BadHead);
    }
    Ok(Accepted {
        attestation,
        envelope,
        content,
    })
}
