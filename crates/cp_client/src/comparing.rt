//! An attestation beside the call that was asked.
ghost use Rattle.std.specs.Prelude.{◌≡◌};
ghost use Rattle.cp_statements.specs.View.{attestation_view, get_request_view, put_request_view};
ghost use Rattle.cp_client.specs.Accepting.{other_than_get, other_than_put};

use crate::Field;
use cp_statements::{Attestation, GetRequest, Kind, PutRequest};

// The first field in which the attestation is not of the get.
pub(crate) fn other_than_get(request: &GetRequest, attestation: &Attestation) -> Option<Field>
    ensures { result ≡ other_than_get (get_request_view request.now) (attestation_view attestation.now) }
{
    if attestation.store != request.store {
        return Some(Field::Store);
    }
    if attestation.kind.byte() != Kind::Get.byte() {
        return Some(Field::Kind);
    }
    if attestation.epoch != request.epoch {
        return Some(Field::Epoch);
    }
    if attestation.block != request.block {
        return Some(Field::Block);
    }
    if attestation.client != request.client {
        return Some(Field::Client);
    }
    if attestation.nonce != request.nonce {
        return Some(Field::Nonce);
    }
    None
}

// The first field in which the attestation is not of the put.
pub(crate) fn other_than_put(put: &PutRequest, attestation: &Attestation) -> Option<Field>
    ensures { result ≡ other_than_put (put_request_view put.now) (attestation_view attestation.now) }
{
    if attestation.store != put.store {
        return Some(Field::Store);
    }
    if attestation.kind.byte() != Kind::Put.byte() {
        return Some(Field::Kind);
    }
    if attestation.epoch != put.epoch {
        return Some(Field::Epoch);
    }
    if attestation.block != put.block {
        return Some(Field::Block);
    }
    if attestation.client != put.client {
        return Some(Field::Client);
    }
    if attestation.nonce != put.nonce {
        return Some(Field::Nonce);
    }
    if attestation.version != put.version {
        return Some(Field::Version);
    }
    if attestation.content != put.content {
        return Some(Field::Hash);
    }
    None
}
