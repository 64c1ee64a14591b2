// What a disk in memory does.
ghost use Rattle.std.specs.Prelude.{◌≡◌, [], ◌∷◌, ◌+◌, ◌*◌, ◌/◌, ◌%◌, ◌≤◌, ◌++◌, length, map, All, IfOk, IfSome, OnErr, is_err, vec_len};
ghost use Rattle.std.specs.Prelude.{vec_capacity, refl};
ghost use Rattle.board_core.specs.Counters.{plain_counters};
ghost use Rattle.board_core.specs.Disk.{ReadsDisk, WritesDisk, Flushes, IsSectorOf, overlaid, write_records};
ghost use Rattle.board_mem.specs.Fails.{next_failure, observed_counters, changed_counters, FollowsPlan};
ghost use Rattle.board_mem.specs.Remains.{record_left, record_standing};
ghost use Rattle.board_mem.specs.MemDisk.{mem_disk_state, mem_disk_plan, mem_disk_torn, LeavesSectors, NotesSectors};

use crate::fails::{FailAt, Remains, Schedule, leave};
use crate::mem_disk::MemDisk;
use crate::ranges::replace;
use board_core::{Disk, Failed, Torn, note, raise};
use std::alloc::{AllocError, Global};

impl MemDisk {
    /// A disk of these bytes, whole sectors of 512, of whose calls these fail. It takes all its memory here: that of the
    /// bytes and the list, of 64 pending sectors, and of 64 torn records for each entry of the list. `AllocError` is want
    /// of memory.
    pub fn new(alloc: Global, content: &[u8], fails: &[FailAt]) -> Result<MemDisk, AllocError>
        requires { length content.now % 512 ≡ 0 }
        ensures bytes { IfOk result (λ disk. (mem_disk_state disk).medium.bytes ≡ content.now) }
        ensures settled { IfOk result (λ disk. (mem_disk_state disk).medium.writes ≡ []) }
        ensures pending { IfOk result (λ disk. (mem_disk_state disk).medium.pending ≡ 0) }
        ensures torn { IfOk result (λ disk. mem_disk_torn disk ≡ []) }
        ensures sectors_read { IfOk result (λ disk. (mem_disk_state disk).medium.sectors_read ≡ 0) }
        ensures counters { IfOk result (λ disk. (mem_disk_state disk).counters ≡ plain_counters 0 0) }
        ensures fails { IfOk result (λ disk. (mem_disk_plan disk).fails ≡ fails.now) }
        ensures calls { IfOk result (λ disk. (mem_disk_plan disk).calls ≡ 0) }
    {
        let Some(records) = fails.len().checked_mul(64) else {
            return Err(AllocError);
        };
        Ok(MemDisk {
            bytes: content.to_vec(alloc)?,
            schedule: Schedule::new(alloc, fails)?,
            faults: 0,
            failed_changes: 0,
            sectors_read: 0,
            torn: Vec::with_capacity(alloc, records)?,
            writes: Vec::with_capacity(alloc, 64)?,
        })
    }

    /// How many sectors were read so far. The number stands still at the greatest u64.
    pub fn sectors_read(&self) -> u64
        ensures { result ≡ (mem_disk_state self.now).medium.sectors_read }
    {
        self.sectors_read
    }

    /// The records of what its failed calls left torn, the oldest first.
    pub fn torn(&self) -> &[Torn]
        ensures { result.now ≡ mem_disk_torn self.now }
    {
        &self.torn
    }
}

// Leaves the sector of a write torn, and notes it.
fn tear_sector(content: &mut Vec<u8>, torn: &mut Vec<Torn>, write: &Torn, remains: Remains)
    requires sector { IsSectorOf (length content.old.items) write.now }
    requires room { vec_len torn.old + 1 ≤ vec_capacity torn.old }
    ensures content { content.new.items ≡ overlaid content.old.items (record_left remains write.now ∷ []) }
    ensures same_length { length content.new.items ≡ length content.old.items }
    ensures torn { torn.new.items ≡ torn.old.items ++ record_left remains write.now ∷ [] }
    ensures noted { vec_len torn.new ≡ vec_len torn.old + 1 }
    ensures capacity { vec_capacity torn.old ≤ vec_capacity torn.new }
{
    let mut left = [0; 512];
    leave(remains, &write.was, &write.meant, &mut left);
    replace(content, write.at as usize, &left[..write.len as usize]);
    let _ = torn.push(Torn { left, ..*write });
}

// Leaves the sectors of these writes torn, one after another, and notes each.
fn tear_sectors(content: &mut Vec<u8>, torn: &mut Vec<Torn>, writes: &[Torn], remains: Remains)
    requires sectors { All (IsSectorOf (length content.old.items)) writes.now }
    requires room { vec_len torn.old + length writes.now ≤ vec_capacity torn.old }
    ensures content { content.new.items ≡ overlaid content.old.items (map (record_left remains) writes.now) }
    ensures same_length { length content.new.items ≡ length content.old.items }
    ensures torn { torn.new.items ≡ torn.old.items ++ map (record_left remains) writes.now }
    ensures noted { vec_len torn.new ≡ vec_len torn.old + length writes.now }
    ensures capacity { vec_capacity torn.old ≤ vec_capacity torn.new }
{
    for write in writes {
        tear_sector(content, torn, write, remains);
    }
}

// Leaves the sectors of all these writes torn. None is pending after it.
fn end_torn(content: &mut Vec<u8>, torn: &mut Vec<Torn>, writes: &mut Vec<Torn>, remains: Remains)
    requires sectors { All (IsSectorOf (length content.old.items)) writes.old.items }
    requires room { vec_len torn.old + length writes.old.items ≤ vec_capacity torn.old }
    ensures content { content.new.items ≡ overlaid content.old.items (map (record_left remains) writes.old.items) }
    ensures same_length { length content.new.items ≡ length content.old.items }
    ensures torn { torn.new.items ≡ torn.old.items ++ map (record_left remains) writes.old.items }
    ensures noted { vec_len torn.new ≡ vec_len torn.old + length writes.old.items }
    ensures capacity { vec_capacity torn.old ≤ vec_capacity torn.new }
    ensures none_left { writes.new.items ≡ [] }
    ensures held { vec_capacity writes.old ≤ vec_capacity writes.new }
{
    tear_sectors(content, torn, writes, remains);
    writes.clear();
}

// Notes the sector of a write with the bytes that stand there.
fn note_sector(content: &[u8], torn: &mut Vec<Torn>, write: &Torn)
    requires sector { IsSectorOf (length content.now) write.now }
    requires room { vec_len torn.old + 1 ≤ vec_capacity torn.old }
    ensures torn { torn.new.items ≡ torn.old.items ++ record_standing content.now write.now ∷ [] }
    ensures noted { vec_len torn.new ≡ vec_len torn.old + 1 }
    ensures capacity { vec_capacity torn.old ≤ vec_capacity torn.new }
{
    let at = write.at as usize;
    let mut left = [0; 512];
    left.copy_from_slice(&content[at..at + 512]);
    let _ = torn.push(Torn { left, ..*write });
}

// Notes the sectors of these writes with the bytes that stand there.
fn note_sectors(content: &[u8], torn: &mut Vec<Torn>, writes: &[Torn])
    requires sectors { All (IsSectorOf (length content.now)) writes.now }
    requires room { vec_len torn.old + length writes.now ≤ vec_capacity torn.old }
    ensures torn { torn.new.items ≡ torn.old.items ++ map (record_standing content.now) writes.now }
    ensures noted { vec_len torn.new ≡ vec_len torn.old + length writes.now }
    ensures capacity { vec_capacity torn.old ≤ vec_capacity torn.new }
{
    for write in writes {
        note_sector(content, torn, write);
    }
}

impl Disk for MemDisk {
    ghost use Rattle.std.proofs.Common.{arith};

    ghost state = { mem_disk_state };

    ghost armed = { λ disk left keep h. Prim.cc };

    ghost told_size = { λ disk told. Prim.omega (arith, disk.whole) };

    ghost told_pending = { λ disk told. refl };

    fn sectors(&self) -> u64 {
        self.bytes.len() as u64 / 512
    }

    fn pending(&self) -> u32 {
        self.writes.len() as u32
    }

    fn read(&mut self, lba: u64, buf: &mut [u8]) -> Result<(), Failed>
        requires whole { length buf.old % 512 ≡ 0 }
        requires inside { lba + length buf.old / 512 ≤ (mem_disk_state self.old).medium.sectors }
        ensures meets { ReadsDisk lba buf.new (mem_disk_state self.old) (mem_disk_state self.new) result }
        ensures planned { FollowsPlan (mem_disk_plan self.old) (mem_disk_plan self.new) (is_err result) }
        ensures counters { (mem_disk_state self.new).counters ≡ observed_counters (is_err result) (mem_disk_state self.old).counters }
        ensures untouched { OnErr result (buf.new ≡ buf.old) }
        ensures uncounted { OnErr result ((mem_disk_state self.new).medium.sectors_read ≡ (mem_disk_state self.old).medium.sectors_read) }
        ensures notes { OnErr result (NotesSectors (mem_disk_state self.old).medium.writes self.old self.new) }
    {
        if self.schedule.next().is_some() {
            note_sectors(&self.bytes, &mut self.torn, &self.writes);
            self.writes.clear();
            self.faults = raise(self.faults);
            return Err(Failed);
        }
        let at = lba as usize * 512;
        buf.copy_from_slice(&self.bytes[at..at + buf.len()]);
        self.sectors_read = self.sectors_read.saturating_add(buf.len() as u64 / 512);
        Ok(())
    }

    fn write(&mut self, lba: u64, bytes: &[u8]) -> Result<(), Failed>
        requires whole { length bytes.now % 512 ≡ 0 }
        requires inside { lba + length bytes.now / 512 ≤ (mem_disk_state self.old).medium.sectors }
        requires room { (mem_disk_state self.old).medium.pending + length bytes.now / 512 ≤ 64 }
        ensures meets { WritesDisk lba bytes.now (mem_disk_state self.old) (mem_disk_state self.new) result }
        ensures planned { FollowsPlan (mem_disk_plan self.old) (mem_disk_plan self.new) (is_err result) }
        ensures counters { (mem_disk_state self.new).counters ≡ changed_counters (is_err result) (mem_disk_state self.old).counters }
        ensures remains { IfSome (next_failure (mem_disk_plan self.old)) (λ remains. LeavesSectors remains
            ((mem_disk_state self.old).medium.writes ++ write_records lba bytes.now (mem_disk_state self.old).medium) self.old self.new) }
    {
        let at = lba as usize * 512;
        note(
            &mut self.writes,
            at as u64,
            &self.bytes[at..at + bytes.len()],
            bytes,
            bytes,
        );
        match self.schedule.next() {
            None => {
                replace(&mut self.bytes, at, bytes);
                Ok(())
            }
            Some(remains) => {
                end_torn(&mut self.bytes, &mut self.torn, &mut self.writes, remains);
                self.faults = raise(self.faults);
                self.failed_changes = raise(self.failed_changes);
                Err(Failed)
            }
        }
    }

    fn flush(&mut self) -> Result<(), Failed>
        ensures meets { Flushes (mem_disk_state self.old) (mem_disk_state self.new) result }
        ensures planned { FollowsPlan (mem_disk_plan self.old) (mem_disk_plan self.new) (is_err result) }
        ensures counters { (mem_disk_state self.new).counters ≡ changed_counters (is_err result) (mem_disk_state self.old).counters }
        ensures remains { IfSome (next_failure (mem_disk_plan self.old)) (λ remains. LeavesSectors remains
            (mem_disk_state self.old).medium.writes self.old self.new) }
    {
        match self.schedule.next() {
            None => {
                self.writes.clear();
                Ok(())
            }
            Some(remains) => {
                end_torn(&mut self.bytes, &mut self.torn, &mut self.writes, remains);
                self.faults = raise(self.faults);
                self.failed_changes = raise(self.failed_changes);
                Err(Failed)
            }
        }
    }
}
