//! A desk that replies at once.
use cp_session::{Desk, Refusal, Route};
use std::alloc::Global;
use std::sync::Wait;

/// A desk that replies to a put with its body. It refuses the verdict on an epoch for the reason that
/// has the epoch's number here, and the rest since no epoch was closed.
#[derive(Drop)]
pub struct Echo;

// The reasons, each with its number.
fn refusal(number: u64) -> Refusal {
    match number {
        1 => Refusal::Malformed { at: 64 },
        2 => Refusal::WrongStore,
        3 => Refusal::NotAWriter {
            family: 0,
            client: 9,
        },
        4 => Refusal::BadSignature,
        5 => Refusal::ContentMismatch,
        6 => Refusal::NotClosed { count: 0 },
        7 => Refusal::NoVerdict { count: 3 },
        8 => Refusal::WrongEpoch { current: 2 },
        9 => Refusal::NonceUsed { position: 0 },
        10 => Refusal::Overtaken { latest: 1 },
        11 => Refusal::StaleVersion { latest: 0 },
        12 => Refusal::ContentTooLong { length: 65_537 },
        13 => Refusal::LeavesOver {
            drawn: 28,
            limit: 28,
        },
        14 => Refusal::ClosingsOver {
            sealed: 4,
            limit: 4,
        },
        15 => Refusal::PoolFull { free: 0, need: 1 },
        16 => Refusal::BoxFull { held: 67_108_864 },
        _ => Refusal::OutOfMemory,
    }
}

impl Desk for Echo {
    ghost replies = { λ _ _ _ _ _. Unit {0} };

    fn ask<R: Wait>(
        &mut self,
        _rt: &R,
        _alloc: Global,
        route: Route,
        body: &[u8],
        out: &mut Vec<u8>,
    ) -> Result<(), Refusal> {
        match route {
            Route::Put => match out.extend_from_slice(body) {
                Ok(()) => Ok(()),
                Err(_) => Err(Refusal::OutOfMemory),
            },
            Route::Verdict { epoch } => Err(refusal(epoch)),
            _ => Err(refusal(6)),
        }
    }
}
