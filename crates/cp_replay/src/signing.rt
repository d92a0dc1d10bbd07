//! Signed texts.
ghost use Rattle.std.specs.Prelude.{◌≡◌, ◌<◌, ◌^◌, ◌++◌, IfOk, OnOk, length};
ghost use Rattle.cp_bytes.specs.Fields.{part};
ghost use Rattle.lms_tree.specs.Secret.{leaves_of, signature};
ghost use Rattle.cp_replay.specs.Replay.{enveloped, handed, put_signed};
ghost use Rattle.cp_replay.specs.Follows.{SignsBelow};

use crate::OutOfMemory;
use cp_bytes::Bytes;
use cp_core::{Answer, Request};
use cp_statements::PutRequest;
use lms_tree::PrivateKey;
use std::alloc::Global;

// The signature of a text by a leaf.
fn signed(alloc: Global, key: &PrivateKey, leaf: u32, text: &[u8]) -> Result<Vec<u8>, OutOfMemory>
    requires { leaf < leaves_of key.now }
    ensures bytes { IfOk result (λ bytes. bytes.items ≡ signature key.now leaf text.now) }
    ensures short { IfOk result (λ bytes. length bytes.items < 2 ^ 32) }
{
    let mut bytes = vec![in alloc; 0u8; key.sig_len()]?;
    key.sign_into(leaf, text, bytes.as_mut_slice());
    Ok(bytes)
}

// Appends a length of four bytes and the bytes.
fn put_part(out: &mut Vec<u8>, bytes: &[u8]) -> Result<(), OutOfMemory>
    requires { length bytes.now < 2 ^ 32 }
    ensures { OnOk result (out.new.items ≡ out.old.items ++ part bytes.now) }
{
    let len = bytes.len() as u32;
    out.extend_from_slice(&len.to_be_bytes())?;
    out.extend_from_slice(bytes)
}

// Appends the envelope of a text that a leaf signs.
#[tactic(auto, unfolding(cp_statements::specs::Envelope::envelope_text))]
pub(crate) fn put_envelope(
    alloc: Global,
    out: &mut Vec<u8>,
    key: &PrivateKey,
    leaf: u32,
    text: &[u8],
) -> Result<(), OutOfMemory>
    requires leaf { leaf < leaves_of key.now }
    requires short { length text.now < 2 ^ 32 }
    ensures { OnOk result (out.new.items ≡ out.old.items ++ enveloped key.now leaf text.now) }
{
    let signature = signed(alloc, key, leaf, text)?;
    put_part(out, text)?;
    put_part(out, signature.as_slice())
}

// Appends the envelope of the attestation that is answered, if one is.
pub(crate) fn put_handed(
    alloc: Global,
    out: &mut Vec<u8>,
    key: &PrivateKey,
    answer: &Answer,
) -> Result<(), OutOfMemory>
    requires { SignsBelow (leaves_of key.now) answer.now }
    ensures { OnOk result (out.new.items ≡ out.old.items ++ handed key.now answer.now) }
{
    match answer {
        Answer::Booked(booked) => put_envelope(alloc, out, key, booked.leaf(), booked.text()),
        _ => Ok(()),
    }
}

// The put with its content, signed with a leaf of the writer's key.
#[tactic(auto, unfolding(crate::specs::Replay::put_signed))]
pub(crate) fn signed_put(
    alloc: Global,
    writer: &PrivateKey,
    leaf: u32,
    request: PutRequest,
    content: &[u8],
) -> Result<Request, OutOfMemory>
    requires { leaf < leaves_of writer.now }
    ensures { IfOk result (λ put. put ≡ put_signed writer.now leaf request content.now) }
{
    let signature = signed(alloc, writer, leaf, &request.text())?;
    let content = Vec::from_slice(alloc, content)?;
    Ok(Request::Put {
        request,
        signature: Bytes::from_vec(signature),
        content: Bytes::from_vec(content),
    })
}
