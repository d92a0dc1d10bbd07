//! Laws over the definitions alone. Each function's contract is the law, and its body is empty.
ghost use Rattle.lms_tree.specs.Laws.{InnerNodesHashTheirChildren, LeavesAreNodes, PublicReads, ShortNeverVerifies, SignedNamesItsLeaf, SignedVerifies, TestIsTheStatement};

/// The test by which `verify` answers, in the standard's order of steps, says of all keys, texts and
/// signatures exactly what the standard's conditions say as one statement.
#[tactic(auto, using(crate::proofs::Testing::testing))]
pub fn test_is_the_statement()
    ensures { TestIsTheStatement }
{}

/// No signature of fewer than four bytes verifies, so an empty one doesn't.
#[tactic(auto, using(crate::proofs::Testing::testing))]
pub fn short_never_verifies()
    ensures { ShortNeverVerifies }
{}

/// The tree's nodes are those of RFC 8554, 5.3: from 2^h on over the one-time public keys, and below
/// over their two children.
#[tactic(auto, using(crate::proofs::NodeLemmas::tree))]
pub fn tree_is_the_standards()
    ensures leaves { LeavesAreNodes }
    ensures inner { InnerNodesHashTheirChildren }
{}

/// The public key of a private key reads.
#[tactic(auto, using(crate::proofs::Climbing::signed))]
pub fn public_reads()
    ensures { PublicReads }
{}

/// What a leaf of the tree signs names the leaf, and verifies under the public key.
#[tactic(auto, using(crate::proofs::Climbing::signed))]
pub fn what_is_signed_verifies()
    ensures leaf { SignedNamesItsLeaf }
    ensures verifies { SignedVerifies }
{}
