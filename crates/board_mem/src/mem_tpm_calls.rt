// What a TPM in memory does.
ghost use Rattle.std.specs.Prelude.{◌≡◌, ◌≤◌, ◌++◌, length, drop, IfOk, IfSome, OnErr, is_err, false};
ghost use Rattle.board_core.specs.Counters.{plain_counters};
ghost use Rattle.board_core.specs.Tpm.{StartsUp, ReadsSpace, WritesSpace, LocksSpace, is_locked, unlocked, with_space};
ghost use Rattle.board_mem.specs.Fails.{FollowsPlan, next_failure, observed_counters, changed_counters};
ghost use Rattle.board_mem.specs.MemTpm.{mem_tpm_state, mem_tpm_plan, spaces_left};

use crate::fails::{FailAt, Remains, Schedule};
use crate::mem_tpm::{MemSpace, MemTpm};
use board_core::{Failed, Space, Tpm, raise};
use std::alloc::{AllocError, Global};

impl MemSpace {
    // An unlocked space of these bytes, with room for 64.
    fn new(alloc: Global, content: &[u8]) -> Result<MemSpace, AllocError>
        requires { length content.now ≤ 64 }
        ensures bytes { IfOk result (λ space. space.bytes.items ≡ content.now) }
        ensures unlocked { IfOk result (λ space. space.is_locked ≡ false) }
    {
        let mut bytes = Vec::with_capacity(alloc, 64)?;
        bytes.extend_from_slice(content)?;
        Ok(MemSpace {
            bytes,
            is_locked: false,
        })
    }

    // Puts other bytes in place of those that it has. The room was reserved, so it takes no memory and does not fail.
    fn replace(&mut self, content: &[u8])
        requires { length content.now ≤ 64 }
        ensures bytes { self.new.bytes.items ≡ content.now }
        ensures lock { self.new.is_locked ≡ self.old.is_locked }
    {
        self.bytes.clear();
        let _ = self.bytes.extend_from_slice(content);
    }

    // Copies the bytes to the front of a buffer, and answers how many there are.
    fn copy_to(&self, buf: &mut [u8; 64]) -> usize
        ensures count { result ≡ length self.now.bytes.items }
        ensures copied { buf.new ≡ self.now.bytes.items ++ drop (length self.now.bytes.items) buf.old }
    {
        buf[..self.bytes.len()].copy_from_slice(&self.bytes);
        self.bytes.len()
    }
}

impl MemTpm {
    /// A TPM whose spaces have these bytes and are unlocked, of whose calls these fail. It takes all its memory here:
    /// 64 bytes for each space, and that of the list. `AllocError` is want of memory.
    pub fn new(
        alloc: Global,
        firmware: &[u8],
        kernel: &[u8],
        fails: &[FailAt],
    ) -> Result<MemTpm, AllocError>
        requires firmware { length firmware.now ≤ 64 }
        requires kernel { length kernel.now ≤ 64 }
        ensures firmware { IfOk result (λ tpm. (mem_tpm_state tpm).spaces.firmware ≡ firmware.now) }
        ensures kernel { IfOk result (λ tpm. (mem_tpm_state tpm).spaces.kernel ≡ kernel.now) }
        ensures unlocked { IfOk result (λ tpm. (mem_tpm_state tpm).locks ≡ unlocked) }
        ensures counters { IfOk result (λ tpm. (mem_tpm_state tpm).counters ≡ plain_counters 0 0) }
        ensures fails { IfOk result (λ tpm. (mem_tpm_plan tpm).fails ≡ fails.now) }
        ensures calls { IfOk result (λ tpm. (mem_tpm_plan tpm).calls ≡ 0) }
    {
        Ok(MemTpm {
            firmware: MemSpace::new(alloc, firmware)?,
            kernel: MemSpace::new(alloc, kernel)?,
            schedule: Schedule::new(alloc, fails)?,
            faults: 0,
            failed_changes: 0,
        })
    }

    // Puts other bytes in place of those of a space.
    fn replace(&mut self, space: Space, bytes: &[u8])
        requires { length bytes.now ≤ 64 }
        ensures state { mem_tpm_state self.new ≡ record (mem_tpm_state self.old) {
          spaces = with_space space bytes.now
              (mem_tpm_state self.old).spaces;
        } }
        ensures plan { mem_tpm_plan self.new ≡ mem_tpm_plan self.old }
    {
        match space {
            Space::Firmware => self.firmware.replace(bytes),
            Space::Kernel => self.kernel.replace(bytes),
        }
    }
}

impl Tpm for MemTpm {
    ghost state = { mem_tpm_state };

    ghost armed = { λ tpm left keep h. Prim.cc };

    ghost told_size = { λ tpm told. record { firmware = tpm.firmware.fits; kernel = tpm.kernel.fits } };

    fn startup(&mut self) -> Result<(), Failed>
        ensures meets { StartsUp (mem_tpm_state self.old) (mem_tpm_state self.new) result }
        ensures planned { FollowsPlan (mem_tpm_plan self.old) (mem_tpm_plan self.new) (is_err result) }
        ensures counters { (mem_tpm_state self.new).counters ≡ observed_counters (is_err result) (mem_tpm_state self.old).counters }
    {
        if self.schedule.next().is_some() {
            self.faults = raise(self.faults);
            return Err(Failed);
        }
        self.firmware.is_locked = false;
        self.kernel.is_locked = false;
        Ok(())
    }

    fn read(&mut self, space: Space, buf: &mut [u8; 64]) -> Result<usize, Failed>
        ensures meets { ReadsSpace space buf.new (mem_tpm_state self.old) (mem_tpm_state self.new) result }
        ensures planned { FollowsPlan (mem_tpm_plan self.old) (mem_tpm_plan self.new) (is_err result) }
        ensures counters { (mem_tpm_state self.new).counters ≡ observed_counters (is_err result) (mem_tpm_state self.old).counters }
        ensures rest { IfOk result (λ count. drop count buf.new ≡ drop count buf.old) }
        ensures untouched { OnErr result (buf.new ≡ buf.old) }
    {
        if self.schedule.next().is_some() {
            self.faults = raise(self.faults);
            return Err(Failed);
        }
        Ok(match space {
            Space::Firmware => self.firmware.copy_to(buf),
            Space::Kernel => self.kernel.copy_to(buf),
        })
    }

    fn write(&mut self, space: Space, bytes: &[u8]) -> Result<(), Failed>
        requires unlocked { is_locked space (mem_tpm_state self.old).locks ≡ false }
        requires fits { length bytes.now ≤ 64 }
        ensures meets { WritesSpace space bytes.now (mem_tpm_state self.old) (mem_tpm_state self.new) result }
        ensures planned { FollowsPlan (mem_tpm_plan self.old) (mem_tpm_plan self.new) (is_err result) }
        ensures counters { (mem_tpm_state self.new).counters ≡ changed_counters (is_err result) (mem_tpm_state self.old).counters }
        ensures remains { IfSome (next_failure (mem_tpm_plan self.old)) (λ remains. (mem_tpm_state self.new).spaces ≡
            spaces_left remains space bytes.now (mem_tpm_state self.old).spaces) }
    {
        match self.schedule.next() {
            None => {
                self.replace(space, bytes);
                Ok(())
            }
            Some(remains) => {
                if let Remains::New = remains {
                    self.replace(space, bytes);
                }
                self.faults = raise(self.faults);
                self.failed_changes = raise(self.failed_changes);
                Err(Failed)
            }
        }
    }

    fn lock(&mut self, space: Space) -> Result<(), Failed>
        ensures meets { LocksSpace space (mem_tpm_state self.old) (mem_tpm_state self.new) result }
        ensures planned { FollowsPlan (mem_tpm_plan self.old) (mem_tpm_plan self.new) (is_err result) }
        ensures counters { (mem_tpm_state self.new).counters ≡ observed_counters (is_err result) (mem_tpm_state self.old).counters }
        // A failed lock changes no lock.
        ensures unchanged { OnErr result ((mem_tpm_state self.new).locks ≡ (mem_tpm_state self.old).locks) }
    {
        if self.schedule.next().is_some() {
            self.faults = raise(self.faults);
            return Err(Failed);
        }
        match space {
            Space::Firmware => self.firmware.is_locked = true,
            Space::Kernel => self.kernel.is_locked = true,
        }
        Ok(())
    }
}
