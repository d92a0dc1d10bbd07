//! What is asked of an attestation.
ghost use Rattle.std.specs.Prelude.{◌≡◌, ◌||◌, nat_le, nat_lt};
ghost use Rattle.cp_statements.specs.View.{attestation_view};
ghost use Rattle.cp_statements.specs.declared.kind.Kind.TheVariants.{Get};
ghost use Rattle.cp_chain.specs.View.{frame_view};
ghost use Rattle.cp_evidence.specs.Conditions.{head_fits, is_outside};

use cp_bytes::head;
use cp_chain::Frame;
use cp_statements::{Attestation, Entry};

/// Whether a get attestation's head is the one after its entry. It takes no memory.
pub fn head_fits(a: &Attestation) -> bool
    requires { a.now.kind ≡ Get }
    ensures { result ≡ head_fits (attestation_view a.now) }
{
    let entry = Entry {
        kind: a.kind,
        epoch: a.epoch,
        block: a.block,
        position: a.position,
        client: a.client,
        nonce: a.nonce,
        version: a.version,
        content: a.content,
        signature: &[],
    };
    a.head == head(&a.prev, &entry.fields_text())
}

/// Whether the attestation's position isn't between the counts of its block.
pub fn is_outside(frame: &Frame, a: &Attestation) -> bool
    ensures { result ≡ is_outside (frame_view frame.now) (attestation_view a.now) }
{
    a.position < frame.before.count || frame.after.count <= a.position
}
