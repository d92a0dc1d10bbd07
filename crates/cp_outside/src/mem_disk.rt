//! A disk in memory.
ghost use Rattle.std.specs.Prelude.{◌≡◌, ◌↔◌, ◌⊎◌, ◌+◌, ◌*◌, ◌<◌, ◌≤◌, [], Some, length, true, IsTrue, IsErr, IfOk, OnOk, OnErr, Contains, vec_len, vec_capacity};
ghost use Rattle.cp_outside.specs.Causes.{HasCause};
ghost use Rattle.cp_outside.specs.Disks.{overwritten, IsTorn, ReadsThere, Follows, Only, Among, Elapses};
ghost use Rattle.cp_outside.specs.MemDisks.{made_calls, written_by, content_after, left_since, write_cost};
ghost use Rattle.cp_outside.specs.MemDiskLaws.{seen_is_left, counts_since};

use crate::call_plan::CallPlan;
use crate::disk::Disk;
use crate::disk_bytes::{cost, give, keep, note, overwrite_within};
use crate::disk_call::DiskCall;
use crate::failures::{Failed, OutOfMemory};
use crate::tearing::torn_image;
use std::alloc::Global;

/// A disk in memory, with a room that it takes when it is made and a record of its calls, from which
/// each image that a crash may leave can be made.
///
/// A call fills the room by 64, by the bytes that it writes and by what it adds to the length. It
/// fails, and then changes nothing, exactly where its number is listed (calls are counted from 0,
/// whichever they are), the disk was stopped, or it does not fit the room that is left.
#[derive(Drop)]
pub struct MemDisk {
    start: Vec<u8>,
    content: Vec<u8>,
    calls: Vec<DiskCall>,
    bytes: Vec<u8>,
    room: u64,
    left: u64,
    plan: CallPlan,
    ghost replayed: { content.items ≡ content_after start.items (made_calls calls.items bytes.items) },
    ghost written: { written_by calls.items ≡ length bytes.items },
    ghost call_room: { 64 * vec_len calls + left ≤ room },
    ghost calls_fit: { room < 64 * (vec_capacity calls + 1) },
    ghost byte_room: { vec_len bytes + left ≤ vec_capacity bytes },
    ghost content_room: { vec_len content + left ≤ vec_capacity content },
}

impl MemDisk {
    ghost use Rattle.cp_outside.specs.MemDiskWords.{content_of, start_of, record_of, room_of, left_of, failing_of, count_of, further_of, faults_of, IsFresh};

    /// An empty disk with so many bytes of room, whose calls with the listed numbers fail.
    pub fn new(alloc: Global, room: u64, failing: Vec<u64>) -> Result<MemDisk, OutOfMemory>
        ensures { IfOk result (IsFresh [] room failing.items) }
    {
        MemDisk::over(alloc, Vec::new(alloc), room, failing)
    }

    // A disk that holds this for good.
    fn over(
        alloc: Global,
        start: Vec<u8>,
        room: u64,
        failing: Vec<u64>,
    ) -> Result<MemDisk, OutOfMemory>
        ensures { IfOk result (IsFresh start.items room failing.items) }
    {
        let size = (room as usize).checked_add(start.len()).ok_or(OutOfMemory)?;
        let mut content = Vec::with_capacity(alloc, size)?;
        let calls = Vec::with_capacity(alloc, (room / 64) as usize)?;
        let bytes = Vec::with_capacity(alloc, room as usize)?;
        keep(&mut content, &start);
        Ok(MemDisk {
            start,
            content,
            calls,
            bytes,
            room,
            left: room,
            plan: CallPlan::new(failing),
        })
    }

    /// Makes every call after so many further ones fail.
    pub fn stop_after(&mut self, calls: u64)
        ensures stopped { further_of self.new ≡ Some calls }
        ensures content { content_of self.new ≡ content_of self.old }
        ensures record { (start_of self.new ≡ start_of self.old) × (record_of self.new ≡ record_of self.old) }
        ensures room { (room_of self.new ≡ room_of self.old) × (left_of self.new ≡ left_of self.old) }
        ensures plan { (failing_of self.new ≡ failing_of self.old) × (count_of self.new ≡ count_of self.old) × (faults_of self.new ≡ faults_of self.old) }
    {
        self.plan.stop_after(calls);
    }

    /// The disk after a crash: it holds for good one of the images that a crash may leave now, with
    /// no call that is to fail and as much room as this one was made with. Which image it is, `pick`
    /// chooses: 0 none of what was not synced, 1 all of it, and others parts of it, with other bytes
    /// among them.
    pub fn crash(self, alloc: Global, pick: u64) -> Result<MemDisk, OutOfMemory>
        ensures image { IfOk result (λ disk. left_since (start_of self) (record_of self) (length (record_of self)) (content_of disk)) }
        ensures fresh { IfOk result (λ disk. IsFresh (content_of disk) (room_of self) [] disk) }
    {
        let image = torn_image(alloc, &self.start, &self.calls, &self.bytes, pick)?;
        MemDisk::over(alloc, image, self.room, Vec::new(alloc))
    }
}

impl Disk for MemDisk {
    ghost use Rattle.cp_outside.specs.MemDiskWords.{content_of, start_of, record_of, faults_of, CallFails, Counts};

    ghost tells = { λ _. true };

    ghost seen = { content_of };

    ghost moment = { λ disk. length (record_of disk) };

    ghost images = { λ disk t image. left_since (start_of disk) (record_of disk) t image };

    ghost faults = { faults_of };

    ghost seen_is_image = { λ disk _. seen_is_left (start_of disk) (content_of disk) (record_of disk) disk.replayed };

    ghost counts_now = { λ disk t image _ le left. counts_since (start_of disk) (record_of disk) t image le left };

    fn read(&mut self, at: u64, into: &mut [u8]) -> Result<usize, Failed>
        ensures bound { IfOk result (λ n. n ≤ length into.new) }
        ensures bytes { ReadsThere (content_of self.old) at into.new result }
        ensures seen { content_of self.new ≡ content_of self.old }
        ensures crash { Among (left_since (start_of self.old) (record_of self.old) (length (record_of self.old)))
            (left_since (start_of self.new) (record_of self.new) (length (record_of self.new))) }
        ensures time { Elapses (length (record_of self.old)) (length (record_of self.new))
            (left_since (start_of self.old) (record_of self.old)) (left_since (start_of self.new) (record_of self.new)) result }
        ensures cause { HasCause (faults_of self.old) (faults_of self.new) result }
        ensures fails { IsErr result ↔ CallFails self.old 64 }
        ensures counts { Counts 64 self.old self.new result }
    {
        if self.plan.fails(self.left >= 64) {
            return Err(Failed);
        }
        self.left -= 64;
        note(&mut self.calls, DiskCall::Read);
        Ok(give(&self.content, at, into))
    }

    fn write_at(&mut self, at: u64, bytes: &[u8]) -> Result<(), Failed>
        ensures written { OnOk result (content_of self.new ≡ overwritten (content_of self.old) at bytes.now) }
        ensures in_part { OnErr result (content_of self.new ≡ content_of self.old) }
        ensures crash { Follows (IsTorn at bytes.now) (left_since (start_of self.old) (record_of self.old) (length (record_of self.old)))
            (left_since (start_of self.new) (record_of self.new) (length (record_of self.new))) }
        ensures time { Elapses (length (record_of self.old)) (length (record_of self.new))
            (left_since (start_of self.old) (record_of self.old)) (left_since (start_of self.new) (record_of self.new)) result }
        ensures cause { HasCause (faults_of self.old) (faults_of self.new) result }
        ensures fails { IsErr result ↔ CallFails self.old (write_cost (content_of self.old) at bytes.now) }
        ensures counts { Counts (write_cost (content_of self.old) at bytes.now) self.old self.new result }
    {
        let cost = cost(self.content.len(), at, bytes.len());
        if self.plan.fails(cost <= self.left as u128) {
            return Err(Failed);
        }
        self.left -= cost as u64;
        overwrite_within(&mut self.content, at as usize, bytes);
        keep(&mut self.bytes, bytes);
        let size = bytes.len();
        note(&mut self.calls, DiskCall::Write { at, size });
        Ok(())
    }

    fn sync(&mut self) -> Result<(), Failed>
        ensures durable { OnOk result (Only (content_of self.old) (left_since (start_of self.new) (record_of self.new) (length (record_of self.new)))) }
        ensures seen { content_of self.new ≡ content_of self.old }
        ensures crash { Among (left_since (start_of self.old) (record_of self.old) (length (record_of self.old)))
            (left_since (start_of self.new) (record_of self.new) (length (record_of self.new))) }
        ensures time { Elapses (length (record_of self.old)) (length (record_of self.new))
            (left_since (start_of self.old) (record_of self.old)) (left_since (start_of self.new) (record_of self.new)) result }
        ensures cause { HasCause (faults_of self.old) (faults_of self.new) result }
        ensures fails { IsErr result ↔ CallFails self.old 64 }
        ensures counts { Counts 64 self.old self.new result }
    {
        if self.plan.fails(self.left >= 64) {
            return Err(Failed);
        }
        self.left -= 64;
        note(&mut self.calls, DiskCall::Sync);
        Ok(())
    }
}
