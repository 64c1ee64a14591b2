// What a flash in memory does.
ghost use Rattle.std.specs.Prelude.{◌≡◌, [], ◌+◌, ◌*◌, ◌^◌, ◌<◌, ◌≤◌, ◌++◌, length, vec_len, vec_capacity, ◌%◌, IfOk, IfSome, OnOk, OnErr};
ghost use Rattle.std.specs.Prelude.{is_err, refl};
ghost use Rattle.board_core.specs.Counters.{plain_counters};
ghost use Rattle.board_core.specs.Flash.{spliced, range, erased_page, Reads, Programs, Erases};
ghost use Rattle.board_core.specs.Torn.{torn_records};
ghost use Rattle.board_mem.specs.Fails.{left_by, next_failure, observed_counters, changed_counters, FollowsPlan};
ghost use Rattle.board_mem.specs.MemFlash.{mem_flash_state, mem_flash_plan, mem_flash_torn, LeavesRange};

use crate::fails::{FailAt, Remains, Schedule, leave};
use crate::mem_flash::MemFlash;
use crate::ranges::replace;
use board_core::{Failed, Flash, Torn, make_erased_page, note, raise};
use std::alloc::{AllocError, Global};

impl MemFlash {
    /// A flash of these bytes, of whose calls these fail. It takes all its memory here: that of the bytes and the list,
    /// and of 8 torn records for each entry of the list. `AllocError` is want of memory.
    pub fn new(alloc: Global, content: &[u8], fails: &[FailAt]) -> Result<MemFlash, AllocError>
        requires { length content.now < 2 ^ 32 }
        ensures bytes { IfOk result (λ flash. (mem_flash_state flash).medium.bytes ≡ content.now) }
        ensures torn { IfOk result (λ flash. mem_flash_torn flash ≡ []) }
        ensures counters { IfOk result (λ flash. (mem_flash_state flash).counters ≡ plain_counters 0 0) }
        ensures fails { IfOk result (λ flash. (mem_flash_plan flash).fails ≡ fails.now) }
        ensures calls { IfOk result (λ flash. (mem_flash_plan flash).calls ≡ 0) }
    {
        Ok(MemFlash {
            bytes: content.to_vec(alloc)?,
            schedule: Schedule::new(alloc, fails)?,
            faults: 0,
            failed_changes: 0,
            torn: Vec::with_capacity(alloc, 8 * fails.len())?,
        })
    }
}

// Leaves a range torn, and notes it. The last two are room for a range.
fn tear(
    content: &mut Vec<u8>,
    torn: &mut Vec<Torn>,
    at: usize,
    meant: &[u8],
    remains: Remains,
    was: &mut [u8],
    left: &mut [u8],
)
    requires inside { at + length meant.now ≤ length content.old.items }
    requires page { length meant.now ≤ 4096 }
    requires room { vec_len torn.old + 8 ≤ vec_capacity torn.old }
    requires was { length was.old ≡ length meant.now }
    requires left { length left.old ≡ length meant.now }
    ensures content { content.new.items ≡ spliced content.old.items at (left_by remains (range content.old.items at
        (length meant.now)) meant.now) }
    ensures same_length { length content.new.items ≡ length content.old.items }
    ensures torn { torn.new.items ≡ torn.old.items ++ torn_records at (range content.old.items at (length meant.now)) meant.now
        (left_by remains (range content.old.items at (length meant.now)) meant.now) }
    ensures capacity { vec_capacity torn.old ≤ vec_capacity torn.new }
    ensures noted { vec_len torn.new ≤ vec_len torn.old + 8 }
{
    was.copy_from_slice(&content[at..at + meant.len()]);
    leave(remains, was, meant, left);
    note(torn, at as u64, was, meant, left);
    replace(content, at, left);
}

impl Flash for MemFlash {
    ghost state = { mem_flash_state };

    ghost armed = { λ flash left keep h. Prim.cc };

    ghost told_size = { λ flash told. refl };

    fn size(&self) -> u32 {
        self.bytes.len() as u32
    }

    fn read(&mut self, at: u32, buf: &mut [u8]) -> Result<(), Failed>
        requires { at + length buf.old ≤ (mem_flash_state self.old).medium.size }
        ensures meets { Reads at buf.new (mem_flash_state self.old) (mem_flash_state self.new) result }
        ensures planned { FollowsPlan (mem_flash_plan self.old) (mem_flash_plan self.new) (is_err result) }
        ensures counters { (mem_flash_state self.new).counters ≡ observed_counters (is_err result) (mem_flash_state self.old).counters }
        ensures untouched { OnErr result (buf.new ≡ buf.old) }
    {
        if self.schedule.next().is_some() {
            self.faults = raise(self.faults);
            return Err(Failed);
        }
        let at = at as usize;
        buf.copy_from_slice(&self.bytes[at..at + buf.len()]);
        Ok(())
    }

    fn program(&mut self, at: u32, bytes: &[u8]) -> Result<(), Failed>
        requires inside { at + length bytes.now ≤ (mem_flash_state self.old).medium.size }
        requires one_page { at % 4096 + length bytes.now ≤ 4096 }
        ensures meets { Programs at bytes.now (mem_flash_state self.old) (mem_flash_state self.new) result }
        ensures planned { FollowsPlan (mem_flash_plan self.old) (mem_flash_plan self.new) (is_err result) }
        ensures counters { (mem_flash_state self.new).counters ≡ changed_counters (is_err result) (mem_flash_state self.old).counters }
        ensures written { OnOk result ((mem_flash_state self.new).medium.bytes ≡ spliced
            (mem_flash_state self.old).medium.bytes at bytes.now) }
        ensures remains { IfSome (next_failure (mem_flash_plan self.old)) (λ remains. LeavesRange remains at bytes.now self.old self.new) }
    {
        match self.schedule.next() {
            None => {
                replace(&mut self.bytes, at as usize, bytes);
                Ok(())
            }
            Some(remains) => {
                let count = bytes.len();
                let mut was = [0; 4096];
                let mut left = [0; 4096];
                tear(
                    &mut self.bytes,
                    &mut self.torn,
                    at as usize,
                    bytes,
                    remains,
                    &mut was[..count],
                    &mut left[..count],
                );
                self.faults = raise(self.faults);
                self.failed_changes = raise(self.failed_changes);
                Err(Failed)
            }
        }
    }

    fn erase(&mut self, page: u32) -> Result<(), Failed>
        requires { page * 4096 + 4096 ≤ (mem_flash_state self.old).medium.size }
        ensures meets { Erases page (mem_flash_state self.old) (mem_flash_state self.new) result }
        ensures planned { FollowsPlan (mem_flash_plan self.old) (mem_flash_plan self.new) (is_err result) }
        ensures counters { (mem_flash_state self.new).counters ≡ changed_counters (is_err result) (mem_flash_state self.old).counters }
        ensures written { OnOk result ((mem_flash_state self.new).medium.bytes ≡ spliced (mem_flash_state self.old).medium.bytes
            (page * 4096) erased_page) }
        ensures remains { IfSome (next_failure (mem_flash_plan self.old)) (λ remains. LeavesRange remains
            (page * 4096) erased_page self.old self.new) }
    {
        let at = page as usize * 4096;
        let blank = make_erased_page();
        match self.schedule.next() {
            None => {
                replace(&mut self.bytes, at, &blank);
                Ok(())
            }
            Some(remains) => {
                let mut was = [0; 4096];
                let mut left = [0; 4096];
                tear(
                    &mut self.bytes,
                    &mut self.torn,
                    at,
                    &blank,
                    remains,
                    &mut was,
                    &mut left,
                );
                self.faults = raise(self.faults);
                self.failed_changes = raise(self.failed_changes);
                Err(Failed)
            }
        }
    }
}
