//! The measurement of puts.
use crate::shard::measuring::{made_with, map_of, place_of};
use crate::shard::store::{STORE, Store, block_at};
use crate::shard::yardstick::Yardstick;
use cp_bytes::digest;
use cp_statements::{Envelope, PutRequest};
use lms_ots::OtsType;
use lms_tree::{Height, PrivateKey};
use std::alloc::Global;
use std::io;
use std::time::Instant;

/// The content of each put.
const CONTENT: [u8; 32] = [9; 32];

/// The length of a signature of height 5 and width 4.
const SIGNATURE: usize = 2348;

/// What some calls took, in nanoseconds, and how many there were.
#[derive(Clone, Copy)]
struct Spent {
    asking: u128,
    turning: u128,
    answered: u64,
}

// A list of one row: client 1 writes family 0 by this key.
fn one_row(key: &[u8; 56]) -> [u8; 72] {
    let mut bytes = [0u8; 72];
    bytes[..8].copy_from_slice(b"CPf1\0\0\0\x01");
    bytes[15] = 1;
    bytes[16..].copy_from_slice(key);
    bytes
}

// The put that is the call of this number: each block's version is one more at each turn of it.
fn request_of(call: u64, blocks: u64) -> PutRequest {
    let turns = if blocks == 0 { 0 } else { call / blocks };
    PutRequest {
        store: STORE,
        epoch: 1,
        block: block_at(place_of(call, blocks)),
        client: 1,
        nonce: call,
        version: turns.wrapping_add(1),
        content: digest(&CONTENT),
    }
}

// Asks a put that is signed before the clock starts, and turns the map for it.
fn ask_one(
    rt: &HostRuntime,
    store: &mut Store,
    map: &mut Yardstick,
    request: &PutRequest,
    signature: &[u8],
) -> io::Result<Spent> {
    let text = request.text();
    let envelope = Envelope {
        text: &text,
        signature,
    };
    let none = Spent {
        asking: 0,
        turning: 0,
        answered: 0,
    };
    let Some(put) = store.verified(&envelope) else {
        return Ok(none);
    };
    let begun = Instant::now(rt)?;
    let answered = store.put(rt.alloc(), &put, &CONTENT);
    let asking = begun.elapsed(rt)?.as_nanos();
    let begun = Instant::now(rt)?;
    let found = map.turn(request.block, 1);
    let turning = begun.elapsed(rt)?.as_nanos();
    if !answered || found != Some(true) {
        return Ok(none);
    }
    Ok(Spent {
        asking,
        turning,
        answered: 1,
    })
}

// Asks so many puts of so many blocks in turn.
fn ask_all(
    rt: &HostRuntime,
    key: &PrivateKey,
    store: &mut Store,
    map: &mut Yardstick,
    blocks: u64,
    calls: u64,
) -> io::Result<Spent> {
    let mut spent = Spent {
        asking: 0,
        turning: 0,
        answered: 0,
    };
    let mut signature = [0u8; SIGNATURE];
    for call in 0..calls {
        let request = request_of(call, blocks);
        if key.leaves() > 0 && key.sig_len() == SIGNATURE {
            key.sign_into(0, &request.text(), &mut signature);
        }
        let one = ask_one(rt, store, map, &request, &signature)?;
        spent = Spent {
            asking: spent.asking.wrapping_add(one.asking),
            turning: spent.turning.wrapping_add(one.turning),
            answered: spent.answered.wrapping_add(one.answered),
        };
    }
    Ok(spent)
}

// A key of 32 leaves, of which the first signs all puts here; none where memory is wanted.
fn key_of(alloc: Global) -> Option<PrivateKey> {
    PrivateKey::make(alloc, [3; 32], [4; 16], Height::H5, OtsType::W4).ok()
}

/// Asks so many puts of so many blocks, and prints what they took beside the same turns of a map.
pub fn puts(rt: &HostRuntime, blocks: u64, calls: u64) -> io::Result<()> {
    let alloc = rt.alloc();
    let Ok(pages) = u32::try_from(calls.min(blocks).saturating_add(1)) else {
        return println!(rt; "too many blocks");
    };
    let Some(key) = key_of(alloc) else {
        return println!(rt; "out of memory");
    };
    let list = one_row(&key.public().bytes());
    let (Some(mut store), Some(mut map)) = (
        made_with(alloc, blocks, pages, &list),
        map_of(alloc, blocks),
    ) else {
        return println!(rt; "out of memory");
    };
    let spent = ask_all(rt, &key, &mut store, &mut map, blocks, calls)?;
    if spent.answered != calls {
        return println!(rt; "not all calls were answered");
    }
    println!(rt; "puts {} {} {calls}", spent.asking, spent.turning)
}
