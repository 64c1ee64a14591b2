// What a fuse over a disk does.
ghost use Rattle.std.specs.Prelude.{◌≡◌, ◌+◌, ◌≤◌, [], length, IsOk, OnOk, OnErr, is_err, ◌/◌, ◌%◌};
ghost use Rattle.board_core.specs.declared.counters.FuseState.TheVariants.{Dead};
ghost use Rattle.board_core.specs.Counters.{armed_counters, revived_counters, plain_counters};
ghost use Rattle.board_core.specs.Disk.{ReadsDisk, WritesDisk, Flushes};
ghost use Rattle.board_core.specs.FuseDisk.{fuse_disk_state, FuseReadsDisk, FuseWritesDisk, FuseFlushes};

use crate::counters::{Counters, FuseState, Turn, raise};
use crate::device::Failed;
use crate::disk::Disk;
use crate::fuse_disk::FuseDisk;
use crate::fuse_disk_parts::{cut_write, flush_below, read_below, settle, write_after_read};
use crate::torn::Torn;
use std::alloc::{AllocError, Global};

impl<D: Disk> FuseDisk<D> {
    /// An unarmed fuse over the disk, with counts of 0 and no torn records. It takes no memory yet.
    pub fn new(alloc: Global, inner: D) -> Self
        ensures inner { result.inner ≡ inner }
        ensures counters { result.counters ≡ plain_counters 0 0 }
        ensures torn { result.torn.items ≡ [] }
        ensures sectors_read { result.sectors_read ≡ 0 }
    {
        FuseDisk {
            inner,
            counters: Counters::new(),
            sectors_read: 0,
            torn: Vec::new(alloc),
            writes: Vec::new(alloc),
        }
    }

    /// The disk below.
    pub fn inner(&self) -> &D
        ensures { result.now ≡ self.now.inner }
    {
        &self.inner
    }

    /// Where the stop stands. It is told always.
    pub fn state(&self) -> FuseState
        ensures { result ≡ self.now.counters.stop }
    {
        self.counters.stop
    }

    /// Chooses the `call`-th changing call from now on, counted from 1, and raises the number of settings. Nothing is
    /// pending then. A chosen write keeps its first `keep / 512` sectors, and the disk below is flushed after it; a chosen
    /// flush happens whatever `keep` is. The chosen call answers `Failed`, and then the fuse is dead. A second call
    /// replaces the first. A dead fuse stays as it is.
    ///
    /// It takes its memory first, for the torn records of one stop, of which there are at most 64, and for 64 pending
    /// sectors. `AllocError`: the fuse is as before.
    pub fn arm(&mut self, call: u32, keep: u32) -> Result<(), AllocError>
        requires call { 1 ≤ call }
        requires settled { (fuse_disk_state self.old).medium.pending ≡ 0 }
        ensures inner { self.new.inner ≡ self.old.inner }
        ensures torn { self.new.torn.items ≡ self.old.torn.items }
        ensures sectors_read { self.new.sectors_read ≡ self.old.sectors_read }
        ensures ok { OnOk result (self.new.counters ≡ armed_counters call keep self.old.counters) }
        ensures err { OnErr result (self.new.counters ≡ self.old.counters) }
        ensures dead { self.old.counters.stop ≡ Dead → IsOk result }
    {
        if let FuseState::Dead = self.counters.stop {
            return Ok(());
        }
        self.writes.clear();
        self.torn.reserve(64)?;
        self.writes.reserve(64)?;
        self.counters.stop = FuseState::Armed { left: call, keep };
        self.counters.settings = raise(self.counters.settings);
        Ok(())
    }

    /// Lets the disk answer again, disarms the fuse, and raises the number of settings. No torn record is lost.
    pub fn revive(&mut self)
        ensures inner { self.new.inner ≡ self.old.inner }
        ensures torn { self.new.torn.items ≡ self.old.torn.items }
        ensures sectors_read { self.new.sectors_read ≡ self.old.sectors_read }
        ensures counters { self.new.counters ≡ revived_counters self.old.counters }
    {
        self.counters.stop = FuseState::Unarmed;
        self.counters.settings = raise(self.counters.settings);
    }

    /// The records of what the stop of this fuse left torn, the oldest first. Those of the disk below are its own.
    pub fn torn(&self) -> &[Torn]
        ensures { result.now ≡ self.now.torn.items }
    {
        &self.torn
    }
}

impl<D: Disk> Disk for FuseDisk<D> {
    ghost state = { λ fuse. fuse_disk_state fuse };

    ghost armed = { λ fuse. fuse.to_go };

    ghost told_size = { λ fuse. D.told_size fuse.inner };

    ghost told_pending = { λ fuse. D.told_pending fuse.inner };

    fn sectors(&self) -> u64 {
        self.inner.sectors()
    }

    fn pending(&self) -> u32 {
        self.inner.pending()
    }

    fn read(&mut self, lba: u64, buf: &mut [u8]) -> Result<(), Failed>
        requires whole { length buf.old % 512 ≡ 0 }
        requires inside { lba + length buf.old / 512 ≤ (fuse_disk_state self.old).medium.sectors }
        ensures meets { ReadsDisk lba buf.new (fuse_disk_state self.old) (fuse_disk_state self.new) result }
        ensures fused { FuseReadsDisk lba buf.new self.old self.new result }
    {
        // The clause `meets` rests on the range of this number.
        let sectors_read = self.sectors_read;
        if let FuseState::Dead = self.counters.stop {
            return self.counters.count_observed(Err(Failed));
        }
        let answer = read_below(&mut self.inner, &mut self.writes, lba, buf);
        if answer.is_err() {
            return self.counters.count_observed(answer);
        }
        self.sectors_read = sectors_read.saturating_add(buf.len() as u64 / 512);
        self.counters.count_observed(answer)
    }

    fn write(&mut self, lba: u64, bytes: &[u8]) -> Result<(), Failed>
        requires whole { length bytes.now % 512 ≡ 0 }
        requires inside { lba + length bytes.now / 512 ≤ (fuse_disk_state self.old).medium.sectors }
        requires room { (fuse_disk_state self.old).medium.pending + length bytes.now / 512 ≤ 64 }
        ensures meets { WritesDisk lba bytes.now (fuse_disk_state self.old) (fuse_disk_state self.new) result }
        ensures fused { FuseWritesDisk lba bytes.now self.old self.new result }
    {
        match self.counters.begin_change() {
            Turn::Refuse => self.counters.count_change(Err(Failed)),
            Turn::Pass => {
                if let FuseState::Armed { left: _, keep: _ } = self.counters.stop {
                    let mut was = [0; 32768];
                    let answer = write_after_read(
                        &mut self.inner,
                        &mut self.writes,
                        lba,
                        bytes,
                        &mut was[..bytes.len()],
                    );
                    return self.counters.count_change(answer);
                }
                let answer = self.inner.write(lba, bytes);
                self.counters.count_change(answer)
            }
            Turn::Stop { keep } => {
                let count = bytes.len();
                let mut was = [0; 32768];
                let mut left = [0; 32768];
                cut_write(
                    &mut self.inner,
                    &mut self.torn,
                    &mut self.writes,
                    lba,
                    bytes,
                    keep,
                    &mut was[..count],
                    &mut left[..count],
                );
                self.counters.count_change(Err(Failed))
            }
        }
    }

    fn flush(&mut self) -> Result<(), Failed>
        ensures meets { Flushes (fuse_disk_state self.old) (fuse_disk_state self.new) result }
        ensures fused { FuseFlushes self.old self.new result }
    {
        match self.counters.begin_change() {
            Turn::Refuse => self.counters.count_change(Err(Failed)),
            Turn::Pass => {
                let answer = flush_below(&mut self.inner, &mut self.writes);
                self.counters.count_change(answer)
            }
            Turn::Stop { keep: _ } => {
                settle(&mut self.inner, &mut self.torn, &mut self.writes);
                self.counters.count_change(Err(Failed))
            }
        }
    }
}
