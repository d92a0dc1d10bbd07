//! Keys of height 5 and signatures. The bytes are the secret seed of 32, the identifier of 16, the
//! one-time type's code and the leaf's number of four each, and the text.

use cp_bytes::{Cut, OutOfMemory, Short, digest};
use lms_ots::OtsType;
use lms_tree::{Height, PrivateKey};
use std::alloc::Global;
use std::thread::Threads;

// What is signed, by which leaf of which key.
struct Signing<'a> {
    secret: [u8; 32],
    id: [u8; 16],
    ots: OtsType,
    leaf: u32,
    text: &'a [u8],
}

// What the bytes say; none where no type has the code.
fn signing_of(bytes: &[u8]) -> Result<Option<Signing<'_>>, Short> {
    let mut cut = Cut::new(bytes);
    let secret = cut.array32()?;
    let mut id = [0; 16];
    id.copy_from_slice(cut.take(16)?);
    let code = cut.be_u32()?;
    let leaf = cut.be_u32()?;
    let text = cut.take_rest();
    Ok(OtsType::from_code(code).map(|ots| Signing {
        secret,
        id,
        ots,
        leaf,
        text,
    }))
}

// The SHA-256 of the signature; none where the key has no such leaf.
fn signature_digest(
    alloc: Global,
    key: &PrivateKey,
    leaf: u32,
    text: &[u8],
) -> Result<Option<[u8; 32]>, OutOfMemory> {
    let mut signature = vec![in alloc; 0u8; key.sig_len()]?;
    if leaf >= key.leaves() {
        return Ok(None);
    }
    key.sign_into(leaf, text, signature.as_mut_slice());
    Ok(Some(digest(signature.as_slice())))
}

/// The public key, made by three workers, and the SHA-256 of the signature, each in hexadecimal.
pub fn answer_to_signature<R: Threads + Sync>(
    rt: &R,
    alloc: Global,
    bytes: &[u8],
) -> Result<String, OutOfMemory> {
    let Ok(Some(signing)) = signing_of(bytes) else {
        return String::from_str(alloc, "no seed");
    };
    let Signing {
        secret,
        id,
        ots,
        leaf,
        text,
    } = signing;
    let key = PrivateKey::make_by(rt, alloc, 3, secret, id, Height::H5, ots)?;
    let public = hex::encode(alloc, key.public().bytes())?;
    match signature_digest(alloc, &key, leaf, text)? {
        Some(digest) => {
            let digest = hex::encode(alloc, digest)?;
            format!(in alloc; "{public} {digest}")
        }
        None => format!(in alloc; "{public} no leaf"),
    }
}
