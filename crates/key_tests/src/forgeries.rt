//! Witnesses beside those of an implementation in Python over hashlib, and each refusal once.
ghost use Rattle.std.specs.Prelude.{◌≡◌, ◌<◌, ◌*◌, ◌+◌, IfOk};
ghost use Rattle.lms_tree.specs.Secret.{leaves_of};

use lms_forge::{ForgeryRefusal, OutOfMemory, Signed, Witness};
use lms_ots::OtsType;
use lms_tree::{Height, PrivateKey};
use std::alloc::Global;
use std::test::Fail;

const SECRET: [u8; 32] = [
    0xdd, 0x8c, 0x38, 0xfe, 0x6d, 0xa0, 0x47, 0x16, 0xc2, 0xe7, 0x91, 0x57, 0xbf, 0x15, 0x7b, 0x4c,
    0x8e, 0x22, 0xf1, 0x11, 0xc5, 0xd7, 0x6c, 0x58, 0xed, 0x50, 0xa1, 0x6f, 0x80, 0x7c, 0x89, 0x86,
];

const ID: [u8; 16] = [
    0x09, 0xee, 0xac, 0xdf, 0x9d, 0xc4, 0x77, 0x45, 0x31, 0x60, 0xde, 0x4f, 0x99, 0x86, 0x9a, 0x78,
];

// The value of chain 2 of leaf 3 before step 174.
const BLUE_VALUE: [u8; 32] = [
    0xf6, 0x73, 0xcc, 0x89, 0x2f, 0x49, 0x45, 0x50, 0xa2, 0x97, 0x6a, 0x4d, 0x46, 0x25, 0xa4, 0x44,
    0xf3, 0x1c, 0x1e, 0xa9, 0x1c, 0x0a, 0xdb, 0x2a, 0xdf, 0x37, 0xe1, 0x90, 0x0e, 0x2e, 0xe7, 0x11,
];

// The value of chain 0 of leaf 4 before step 154.
const FRESH_VALUE: [u8; 32] = [
    0xb4, 0x6c, 0x7e, 0xb9, 0x0d, 0xd8, 0x0b, 0x5e, 0x49, 0x86, 0x9a, 0x95, 0xb5, 0x84, 0x5c, 0x27,
    0x43, 0x7e, 0x46, 0xf3, 0xcd, 0x03, 0x98, 0x54, 0xf0, 0xbc, 0xa4, 0x8a, 0xc2, 0x4a, 0xbf, 0x4d,
];

fn small_key(alloc: Global) -> Result<PrivateKey, OutOfMemory>
    ensures { IfOk result (λ key. key ≡ record {
      height = Height.H5;
      ots = OtsType.W8;
      id = ID;
      seed = SECRET;
    }) }
{
    PrivateKey::make(alloc, SECRET, ID, Height::H5, OtsType::W8)
}

// What a witness that isn't twins says.
fn numbers(witness: Witness) -> Option<(u32, u16, u8, u8, [u8; 32])> {
    match witness {
        Witness::Twins { .. } => None,
        Witness::Low {
            leaf,
            chain,
            step,
            revealed,
            value,
        } => Some((leaf, chain, step, revealed, value)),
    }
}

#[test]
fn a_second_text_of_a_leaf_is_low(rt: HostRuntime) -> Result<(), Fail> {
    let key = small_key(rt.alloc())?;
    let mut signed = Signed::new(rt.alloc(), &key);
    signed.add(rt.alloc(), 3, b"red").map_err(|_| "refused")?;
    let mut blue = [0u8; 1292];
    key.sign_into(3, b"blue", &mut blue);
    let found = signed
        .forgery(rt.alloc(), b"blue", &blue)
        .map_err(|_| "no witness")?;
    assert_eq!(rt; numbers(found), Some((3, 2, 174, 176, BLUE_VALUE)));
    let mut red = [0u8; 1292];
    key.sign_into(3, b"red", &mut red);
    let known = signed.forgery(rt.alloc(), b"red", &red).err();
    assert!(rt; matches!(known, Some(ForgeryRefusal::Known)));
    let invalid = signed.forgery(rt.alloc(), b"red", &blue).err();
    assert!(rt; matches!(invalid, Some(ForgeryRefusal::Invalid)));
    Ok(())
}

#[test]
fn a_text_of_a_fresh_leaf_is_low(rt: HostRuntime) -> Result<(), Fail> {
    let key = small_key(rt.alloc())?;
    let signed = Signed::new(rt.alloc(), &key);
    let mut blue = [0u8; 1292];
    key.sign_into(4, b"blue", &mut blue);
    let found = signed
        .forgery(rt.alloc(), b"blue", &blue)
        .map_err(|_| "no witness")?;
    assert_eq!(rt; numbers(found), Some((4, 0, 154, 255, FRESH_VALUE)));
    Ok(())
}
