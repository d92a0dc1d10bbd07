//! The counts of an epoch that is clean.
ghost use Rattle.std.specs.Prelude.{◌≡◌, ◌<◌, ◌^◌, map, length, sum_by, count_by};
ghost use Rattle.cp_statements.specs.View.{envelope_view};
ghost use Rattle.cp_evidence.specs.Material.{store_id};
ghost use Rattle.cp_evidence.specs.Verdict.{some_and};
ghost use Rattle.cp_audit.specs.Counts.{is_of_epoch};
ghost use Rattle.cp_audit.specs.Given.{given_view};
ghost use Rattle.cp_audit.specs.Parts.{part_view};

use crate::given::GivenEpoch;
use crate::part::Part;
use cp_statements::Envelope;

// The number of texts in the parts.
#[tactic(auto, using(crate::proofs::CountLemmas::sum_map))]
pub(crate) fn entries(parts: &[Part]) -> u64
    requires { length parts.now < 2 ^ 32 }
    ensures { result ≡ sum_by (λ p. length p.texts) (map part_view parts.now) }
{
    let mut sum = 0;
    for part in parts {
        sum += u64::from(part.segment.count());
    }
    sum
}

// The number of attestations of the epoch.
#[tactic(auto, using(crate::proofs::CountLemmas::count_map))]
pub(crate) fn handed(o: &GivenEpoch, xs: &[Envelope]) -> u64
    ensures { result ≡ count_by (is_of_epoch (given_view o.now)) (map envelope_view xs.now) }
{
    let mut count = 0;
    for x in xs {
        if is_of_epoch(o, x) {
            count += 1;
        }
    }
    count
}

// Whether it is an attestation of the epoch.
fn is_of_epoch(o: &GivenEpoch, x: &Envelope) -> bool
    ensures { result ≡ is_of_epoch (given_view o.now) (envelope_view x.now) }
{
    match o.store.attestation(x.text) {
        Some(a) => a.epoch == o.epoch,
        None => false,
    }
}
