// What a fuse over a flash does.
ghost use Rattle.std.specs.Prelude.{◌≡◌, ◌+◌, ◌*◌, ◌%◌, ◌<◌, ◌≤◌, ◌↔◌, [], length, min, IsTrue, IsOk, OnOk, OnErr, vec_len, vec_capacity};
ghost use Rattle.board_core.specs.declared.counters.FuseState.TheVariants.{Dead};
ghost use Rattle.board_core.specs.Counters.{armed_counters, revived_counters, plain_counters};
ghost use Rattle.board_core.specs.Flash.{Reads, Programs, Erases, erased_page, IsErased};
ghost use Rattle.board_core.specs.Fuse.{fuse_state, Tears, CutsProgram, FuseReads, FusePrograms, FuseErases, CutsErase};

use crate::counters::{Counters, FuseState, Turn, raise};
use crate::device::Failed;
use crate::flash::{Flash, make_erased_page};
use crate::fuse::Fuse;
use crate::torn::{Torn, note};
use std::alloc::{AllocError, Global};

impl<F> Fuse<F> {
    /// An unarmed fuse over the flash, with counts of 0 and no torn records. It takes no memory yet.
    pub fn new(alloc: Global, inner: F) -> Self
        ensures inner { result.inner ≡ inner }
        ensures counters { result.counters ≡ plain_counters 0 0 }
        ensures torn { result.torn.items ≡ [] }
    {
        Fuse {
            inner,
            counters: Counters::new(),
            torn: Vec::new(alloc),
        }
    }

    /// The flash below.
    pub fn inner(&self) -> &F
        ensures { result.now ≡ self.now.inner }
    {
        &self.inner
    }

    /// Where the stop stands. It is told always.
    pub fn state(&self) -> FuseState
        ensures { result ≡ self.now.counters.stop }
    {
        self.counters.stop
    }

    /// Chooses the `call`-th changing call from now on, counted from 1, and raises the number of settings. A chosen
    /// program keeps the first `keep` bytes where its range was erased, else none; a chosen erase happens where `keep` is
    /// at least 4,096, else not at all. The chosen call answers `Failed`, and then the fuse is dead. A second call replaces
    /// the first. A dead fuse stays as it is.
    ///
    /// It takes the memory for the torn records of one stop first: after `AllocError` the fuse is as before.
    pub fn arm(&mut self, call: u32, keep: u32) -> Result<(), AllocError>
        requires { 1 ≤ call }
        ensures inner { self.new.inner ≡ self.old.inner }
        ensures torn { self.new.torn.items ≡ self.old.torn.items }
        ensures ok { OnOk result (self.new.counters ≡ armed_counters call keep self.old.counters) }
        ensures err { OnErr result (self.new.counters ≡ self.old.counters) }
        ensures dead { self.old.counters.stop ≡ Dead → IsOk result }
    {
        if let FuseState::Dead = self.counters.stop {
            return Ok(());
        }
        self.torn.reserve(8)?;
        self.counters.stop = FuseState::Armed { left: call, keep };
        self.counters.settings = raise(self.counters.settings);
        Ok(())
    }

    /// Lets the flash answer again, disarms the fuse, and raises the number of settings. No record of a torn range is lost.
    pub fn revive(&mut self)
        ensures inner { self.new.inner ≡ self.old.inner }
        ensures torn { self.new.torn.items ≡ self.old.torn.items }
        ensures counters { self.new.counters ≡ revived_counters self.old.counters }
    {
        self.counters.stop = FuseState::Unarmed;
        self.counters.settings = raise(self.counters.settings);
    }
}

// Whether each byte is 0xff.
fn is_erased(bytes: &[u8]) -> bool
    ensures { IsTrue result ↔ IsErased bytes.now }
{
    bytes.iter().all(|byte| *byte == 0xff)
}

// How many bytes a chosen program keeps: only an erased range keeps any.
fn kept_count(was: &[u8], keep: u32) -> usize
    ensures erased { 0 < result → IsErased was.now }
    ensures within { result ≤ length was.now }
    ensures all { IsErased was.now → result ≡ min (length was.now) keep }
{
    if is_erased(was) {
        was.len().min(keep as usize)
    } else {
        0
    }
}

// The chosen program: an erased range keeps the first `keep` bytes, any other none. `was` and `left` are room for the bytes
// of the range before the call and after it. Where the flash below fails, its own note stands alone.
fn cut_program<F: Flash>(
    inner: &mut F,
    torn: &mut Vec<Torn>,
    at: u32,
    bytes: &[u8],
    keep: u32,
    was: &mut [u8],
    left: &mut [u8],
)
    requires inside { at + length bytes.now ≤ (F.state inner.old).medium.size }
    requires one_page { at % 4096 + length bytes.now ≤ 4096 }
    requires room { vec_len torn.old + 8 ≤ vec_capacity torn.old }
    requires was { length was.old ≡ length bytes.now }
    requires left { length left.old ≡ length bytes.now }
    ensures size { (F.state inner.new).medium.size ≡ (F.state inner.old).medium.size }
    ensures told { (F.state inner.new).medium.told ≡ (F.state inner.old).medium.told }
    ensures left_torn { Tears at bytes.now (F.state inner.old) (F.state inner.new) torn.old.items torn.new.items }
    ensures cut { CutsProgram keep at bytes.now (F.state inner.old) (F.state inner.new) torn.old.items torn.new.items }
{
    if inner.read(at, was).is_err() {
        return;
    }
    let kept = kept_count(was, keep);
    if kept == 0 {
        note(torn, at as u64, was, bytes, was);
        return;
    }
    if inner.program(at, &bytes[..kept]).is_err() {
        return;
    }
    left.copy_from_slice(was);
    left[..kept].copy_from_slice(&bytes[..kept]);
    note(torn, at as u64, was, bytes, left);
}

// The chosen erase: it happens where `keep` is at least a whole page, else not at all.
fn cut_erase<F: Flash>(inner: &mut F, torn: &mut Vec<Torn>, page: u32, keep: u32)
    requires inside { page * 4096 + 4096 ≤ (F.state inner.old).medium.size }
    requires room { vec_len torn.old + 8 ≤ vec_capacity torn.old }
    ensures size { (F.state inner.new).medium.size ≡ (F.state inner.old).medium.size }
    ensures told { (F.state inner.new).medium.told ≡ (F.state inner.old).medium.told }
    ensures left_torn { Tears (page * 4096) erased_page (F.state inner.old) (F.state inner.new) torn.old.items torn.new.items }
    ensures cut { CutsErase keep page (F.state inner.old) (F.state inner.new) torn.old.items torn.new.items }
{
    let _size = inner.size();
    let at = page as u64 * 4096;
    let mut was = [0; 4096];
    if inner.read(at as u32, &mut was).is_err() {
        return;
    }
    let blank = make_erased_page();
    if keep < 4096 {
        note(torn, at, &was, &blank, &was);
        return;
    }
    if inner.erase(page).is_err() {
        return;
    }
    note(torn, at, &was, &blank, &blank);
}

impl<F: Flash> Flash for Fuse<F> {
    ghost state = { λ fuse. fuse_state F.state fuse };

    ghost armed = { λ fuse. fuse.to_go };

    ghost told_size = { λ fuse. F.told_size fuse.inner };

    fn size(&self) -> u32 {
        self.inner.size()
    }

    fn read(&mut self, at: u32, buf: &mut [u8]) -> Result<(), Failed>
        requires { at + length buf.old ≤ (fuse_state F.state self.old).medium.size }
        ensures meets { Reads at buf.new (fuse_state F.state self.old) (fuse_state F.state self.new) result }
        ensures fused { FuseReads F.state at buf.new self.old self.new result }
    {
        if let FuseState::Dead = self.counters.stop {
            return self.counters.count_observed(Err(Failed));
        }
        let answer = self.inner.read(at, buf);
        self.counters.count_observed(answer)
    }

    fn program(&mut self, at: u32, bytes: &[u8]) -> Result<(), Failed>
        requires inside { at + length bytes.now ≤ (fuse_state F.state self.old).medium.size }
        requires one_page { at % 4096 + length bytes.now ≤ 4096 }
        ensures meets { Programs at bytes.now (fuse_state F.state self.old) (fuse_state F.state self.new) result }
        ensures fused { FusePrograms F.state at bytes.now self.old self.new result }
    {
        match self.counters.begin_change() {
            Turn::Refuse => self.counters.count_change(Err(Failed)),
            Turn::Pass => {
                let answer = self.inner.program(at, bytes);
                self.counters.count_change(answer)
            }
            Turn::Stop { keep } => {
                let count = bytes.len();
                let mut was = [0; 4096];
                let mut left = [0; 4096];
                cut_program(
                    &mut self.inner,
                    &mut self.torn,
                    at,
                    bytes,
                    keep,
                    &mut was[..count],
                    &mut left[..count],
                );
                self.counters.count_change(Err(Failed))
            }
        }
    }

    fn erase(&mut self, page: u32) -> Result<(), Failed>
        requires { page * 4096 + 4096 ≤ (fuse_state F.state self.old).medium.size }
        ensures meets { Erases page (fuse_state F.state self.old) (fuse_state F.state self.new) result }
        ensures fused { FuseErases F.state page self.old self.new result }
    {
        match self.counters.begin_change() {
            Turn::Refuse => self.counters.count_change(Err(Failed)),
            Turn::Pass => {
                let answer = self.inner.erase(page);
                self.counters.count_change(answer)
            }
            Turn::Stop { keep } => {
                cut_erase(&mut self.inner, &mut self.torn, page, keep);
                self.counters.count_change(Err(Failed))
            }
        }
    }
}
