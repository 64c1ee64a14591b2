// What a fuse over a TPM does.
ghost use Rattle.std.specs.Prelude.{◌≡◌, ◌≤◌, length, false};
ghost use Rattle.board_core.specs.Counters.{armed_counters, revived_counters, plain_counters};
ghost use Rattle.board_core.specs.Tpm.{StartsUp, ReadsSpace, WritesSpace, LocksSpace, is_locked};
ghost use Rattle.board_core.specs.FuseTpm.{fuse_tpm_state, FuseStartsUp, FuseReadsSpace, FuseWrites, FuseLocksSpace};

use crate::counters::{Counters, FuseState, Turn, raise};
use crate::device::{Failed, Space};
use crate::fuse_tpm::FuseTpm;
use crate::tpm::Tpm;

impl<T> FuseTpm<T> {
    /// An unarmed fuse over the TPM, with counts of 0. It takes no memory.
    pub fn new(inner: T) -> Self
        ensures inner { result.inner ≡ inner }
        ensures counters { result.counters ≡ plain_counters 0 0 }
    {
        FuseTpm {
            inner,
            counters: Counters::new(),
        }
    }

    /// The TPM below.
    pub fn inner(&self) -> &T
        ensures { result.now ≡ self.now.inner }
    {
        &self.inner
    }

    /// Where the stop stands. It is told always.
    pub fn state(&self) -> FuseState
        ensures { result ≡ self.now.counters.stop }
    {
        self.counters.stop
    }

    /// Chooses the `call`-th write from now on, counted from 1, and raises the number of settings. The chosen write
    /// happens where `keep` is not 0, and answers `Failed`; then the fuse is dead. A second call replaces the first. A
    /// dead fuse stays as it is. It takes no memory.
    pub fn arm(&mut self, call: u32, keep: u32)
        requires { 1 ≤ call }
        ensures inner { self.new.inner ≡ self.old.inner }
        ensures counters { self.new.counters ≡ armed_counters call keep self.old.counters }
    {
        if let FuseState::Dead = self.counters.stop {
            return;
        }
        self.counters.stop = FuseState::Armed { left: call, keep };
        self.counters.settings = raise(self.counters.settings);
    }

    /// Lets the TPM answer again, disarms the fuse, and raises the number of settings.
    pub fn revive(&mut self)
        ensures inner { self.new.inner ≡ self.old.inner }
        ensures counters { self.new.counters ≡ revived_counters self.old.counters }
    {
        self.counters.stop = FuseState::Unarmed;
        self.counters.settings = raise(self.counters.settings);
    }
}

impl<T: Tpm> Tpm for FuseTpm<T> {
    ghost state = { λ fuse. fuse_tpm_state T.state fuse };

    ghost armed = { λ fuse. fuse.to_go };

    ghost told_size = { λ fuse. T.told_size fuse.inner };

    fn startup(&mut self) -> Result<(), Failed>
        ensures meets { StartsUp (fuse_tpm_state T.state self.old) (fuse_tpm_state T.state self.new) result }
        ensures fused { FuseStartsUp T.state self.old self.new result }
    {
        if let FuseState::Dead = self.counters.stop {
            return self.counters.count_observed(Err(Failed));
        }
        let answer = self.inner.startup();
        self.counters.count_observed(answer)
    }

    fn read(&mut self, space: Space, buf: &mut [u8; 64]) -> Result<usize, Failed>
        ensures meets { ReadsSpace space buf.new (fuse_tpm_state T.state self.old) (fuse_tpm_state T.state self.new) result }
        ensures fused { FuseReadsSpace T.state space buf.new self.old self.new result }
    {
        if let FuseState::Dead = self.counters.stop {
            return self.counters.count_observed(Err(Failed));
        }
        let answer = self.inner.read(space, buf);
        self.counters.count_observed(answer)
    }

    fn write(&mut self, space: Space, bytes: &[u8]) -> Result<(), Failed>
        requires unlocked { is_locked space (fuse_tpm_state T.state self.old).locks ≡ false }
        requires fits { length bytes.now ≤ 64 }
        ensures meets { WritesSpace space bytes.now (fuse_tpm_state T.state self.old) (fuse_tpm_state T.state self.new) result }
        ensures fused { FuseWrites T.state space bytes.now self.old self.new result }
    {
        match self.counters.begin_change() {
            Turn::Refuse => self.counters.count_change(Err(Failed)),
            Turn::Pass => {
                let answer = self.inner.write(space, bytes);
                self.counters.count_change(answer)
            }
            Turn::Stop { keep } => {
                if keep == 0 {
                    return self.counters.count_change(Err(Failed));
                }
                let _ = self.inner.write(space, bytes);
                self.counters.count_change(Err(Failed))
            }
        }
    }

    fn lock(&mut self, space: Space) -> Result<(), Failed>
        ensures meets { LocksSpace space (fuse_tpm_state T.state self.old) (fuse_tpm_state T.state self.new) result }
        ensures fused { FuseLocksSpace T.state space self.old self.new result }
    {
        if let FuseState::Dead = self.counters.stop {
            return self.counters.count_observed(Err(Failed));
        }
        let answer = self.inner.lock(space);
        self.counters.count_observed(answer)
    }
}
