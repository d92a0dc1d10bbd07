//! The images that a crash may leave of a disk in memory.
ghost use Rattle.std.specs.Prelude.{◌≡◌, ◌≤◌, length, IfOk, OnOk};
ghost use Rattle.cp_outside.specs.Disks.{IsTorn};
ghost use Rattle.cp_outside.specs.MemDisks.{size_of, made_one, made_calls, written_by, content_step, image_step, images_of};

use crate::disk_bytes::overwrite;
use crate::disk_call::DiskCall;
use std::alloc::{AllocError, Global};

// How much of what a write adds to the length is there after a crash.
fn chosen_length(choice: u64, added: usize) -> usize
    ensures { result ≤ added }
{
    match choice % 4 {
        0 => 0,
        1 => added,
        _ => {
            if added == 0 {
                return 0;
            }
            (choice / 4) as usize % added
        }
    }
}

// The byte number i of a write after a crash: the old one, the new one or another.
fn chosen_byte(choice: u64, i: usize, old: u8, new: u8) -> u8 {
    match choice % 4 {
        0 => old,
        1 => new,
        2 => (choice / 4 % 256) as u8,
        _ => {
            if (choice >> (2 + i % 62)) % 2 == 1 {
                new
            } else {
                old
            }
        }
    }
}

// A write that a crash cuts short.
fn tear(image: &mut Vec<u8>, at: usize, bytes: &[u8], choice: u64) -> Result<(), AllocError>
    ensures { OnOk result (IsTorn at bytes.now image.old.items image.new.items) }
{
    if bytes.is_empty() {
        return Ok(());
    }
    let old = image.len();
    let end = at.checked_add(bytes.len()).ok_or(AllocError)?;
    let size = old + chosen_length(choice, end.saturating_sub(old));
    image.resize(size, (choice % 251) as u8)?;
    let stop = end.min(size);
    for i in at..stop {
        image[i] = chosen_byte(choice, i - at, image[i], bytes[i - at]);
    }
    Ok(())
}

// What a call does to the content and to an image of it, and how many bytes it wrote.
fn replay(
    content: &mut Vec<u8>,
    image: &mut Vec<u8>,
    call: DiskCall,
    bytes: &[u8],
    choice: u64,
) -> Result<usize, AllocError>
    requires { size_of call ≤ length bytes.now }
    ensures size { IfOk result (λ size. size ≡ size_of call) }
    ensures content { OnOk result (content.new.items ≡ content_step content.old.items (made_one call bytes.now)) }
    ensures image { OnOk result (image_step content.old.items (λ other. other ≡ image.old.items) (made_one call bytes.now) image.new.items) }
{
    match call {
        DiskCall::Read => Ok(0),
        DiskCall::Write { at, size } => {
            let written = &bytes[..size];
            overwrite(content, at as usize, written)?;
            tear(image, at as usize, written, choice)?;
            Ok(size)
        }
        DiskCall::Sync => {
            *image = content.to_vec(*content.allocator())?;
            Ok(0)
        }
    }
}

// The first write after a sync is torn as `pick` says, and the others by what follows from it.
fn next_choice(call: DiskCall, choice: u64, pick: u64) -> u64 {
    match call {
        DiskCall::Read => choice,
        DiskCall::Write { .. } => choice
            .wrapping_mul(6364136223846793005)
            .wrapping_add(1442695040888963407),
        DiskCall::Sync => pick,
    }
}

// One of the images that these calls may leave, over a disk that held `start` for good.
pub(crate) fn torn_image(
    alloc: Global,
    start: &[u8],
    calls: &[DiskCall],
    bytes: &[u8],
    pick: u64,
) -> Result<Vec<u8>, AllocError>
    requires { written_by calls.now ≤ length bytes.now }
    ensures { IfOk result (λ image. images_of start.now (made_calls calls.now bytes.now) image.items) }
{
    let mut content = start.to_vec(alloc)?;
    let mut image = start.to_vec(alloc)?;
    let mut rest = bytes;
    let mut choice = pick;
    for call in calls {
        let size = replay(&mut content, &mut image, *call, rest, choice)?;
        let (_, after) = rest.split_at(size);
        rest = after;
        choice = next_choice(*call, choice, pick);
    }
    Ok(image)
}
