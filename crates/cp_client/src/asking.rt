//! Asking for a put.
ghost use Rattle.std.specs.Prelude.{◌≡◌, ◌+◌, ◌^◌, ◌<◌, ◌≤◌, ◌++◌, IfOk, IfErr, OnOk, OnErr, IsTrue, replicate};
ghost use Rattle.sha2.specs.Sha256.{sha256};
ghost use Rattle.cp_bytes.specs.Fields.{part};
ghost use Rattle.cp_statements.specs.PutRequest.{put_request_text};
ghost use Rattle.cp_statements.specs.View.{put_request_view};
ghost use Rattle.lms_tree.specs.Secret.{leaves_of, public_of, signature};
ghost use Rattle.lms_tree.specs.Verifying.{verifies};
ghost use Rattle.cp_client.specs.Asking.{put_body_text, signed_put};
ghost use Rattle.cp_client.specs.View.{IsWhy};

use crate::AskRefusal;
use cp_bytes::OutOfMemory;
use cp_statements::PutRequest;
use key_vault::LeafRange;
use lms_tree::PrivateKey;
use std::alloc::Global;

/// The put body of the request and its content, signed by the least leaf that is left in the range,
/// which is then taken. The request has the content's hash, and the range is of this key's leaves: it
/// has the id that the key's vault has, the hash of the public key.
/// `NoLeaf` comes exactly where the range is empty. A client that asks again sends the same bytes
/// again, and signs nothing anew.
pub fn ask_put(
    alloc: Global,
    key: &PrivateKey,
    range: &mut LeafRange,
    request: &PutRequest,
    content: &[u8],
) -> Result<Vec<u8>, AskRefusal>
    requires hash { request.now.content ≡ sha256 content.now }
    requires key { range.old.key ≡ sha256 (public_of key.now) }
    requires own { range.old.to ≤ leaves_of key.now }
    ensures body { IfOk result (λ body. body.items ≡ put_body_text (signed_put key.now range.old.from (put_request_view request.now) content.now)) }
    ensures signed { IfOk result (λ _. IsTrue (verifies (public_of key.now) (put_request_text (put_request_view request.now)) (signature key.now range.old.from (put_request_text (put_request_view request.now))))) }
    ensures taken { OnOk result ((range.old.from < range.old.to) × (range.new ≡ record range.old { from = range.old.from + 1 })) }
    ensures refused { IfErr result (λ refusal. IsWhy refusal range.old) }
    ensures unchanged { OnErr result (range.new ≡ range.old) }
{
    if range.is_empty() {
        return Err(AskRefusal::NoLeaf);
    }
    let text = request.text();
    let size = key.sig_len();
    let mut body = unsigned_body(alloc, &text, size, content)?;
    let Some(leaf) = range.take() else {
        return Err(AskRefusal::NoLeaf);
    };
    key.sign_into(leaf as u32, &text, &mut body[112..112 + size]);
    Ok(body)
}

// The body with zero bytes in place of the signature.
fn unsigned_body(
    alloc: Global,
    text: &[u8; 104],
    size: usize,
    content: &[u8],
) -> Result<Vec<u8>, OutOfMemory>
    requires { size < 2 ^ 32 }
    ensures { IfOk result (λ body. body.items ≡ part text.now ++ (part (replicate size 0) ++ content.now)) }
{
    let mut body = Vec::new(alloc);
    body.reserve(content.len().saturating_add(112 + size))?;
    body.extend_from_slice(&104u32.to_be_bytes())?;
    body.extend_from_slice(text)?;
    body.extend_from_slice(&(size as u32).to_be_bytes())?;
    body.resize(112 + size, 0)?;
    body.extend_from_slice(content)?;
    Ok(body)
}
