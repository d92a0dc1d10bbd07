//! The lengths of a certificate and of a signature of two levels, and what must not verify.
ghost use Rattle.std.specs.Prelude.{◌≡◌, IfOk, replicate};
ghost use Rattle.lms_tree.specs.declared.height.Height.{Height};
ghost use Rattle.lms_ots.specs.declared.ots_type.OtsType.{OtsType};

use lms_hss::{HssPrivate, HssPublic, OutOfMemory, hss_signature, hss_verify};
use lms_ots::OtsType;
use lms_tree::Height;
use std::alloc::Global;
use std::test::Fail;

fn small_key(alloc: Global) -> Result<HssPrivate, OutOfMemory>
    ensures { IfOk result (λ key. key ≡ record {
      top = Height.H5;
      bottom = Height.H5;
      ots = OtsType.W8;
      id = replicate 16 7;
      seed = replicate 32 9;
    }) }
{
    HssPrivate::make(alloc, [9; 32], [7; 16], Height::H5, Height::H5, OtsType::W8)
}

#[test]
fn a_signature_of_two_levels_has_2644_bytes(rt: HostRuntime) -> Result<(), Fail> {
    let key = small_key(rt.alloc())?;
    let public = HssPublic::read(&key.public()).map_err(|_| "refused")?;
    let certificate = key.certificate(rt.alloc(), 3)?;
    assert_eq!(rt; certificate.len(), 1352);
    let life = key.life(rt.alloc(), 3)?;
    assert_eq!(rt; life.sig_len(), 1292);
    let mut sig = [0u8; 1292];
    life.sign_into(5, b"abc", &mut sig);
    let mut joined = Vec::new(rt.alloc());
    hss_signature(certificate.as_slice(), &sig, &mut joined)?;
    assert_eq!(rt; joined.len(), 2644);
    assert!(rt; hss_verify(&public, b"abc", joined.as_slice()));
    assert!(rt;
        !hss_verify(&public, b"abd", joined.as_slice()),
        "another text"
    );
    joined.push(0)?;
    assert!(rt;
        !hss_verify(&public, b"abc", joined.as_slice()),
        "one byte more"
    );
    Ok(())
}
